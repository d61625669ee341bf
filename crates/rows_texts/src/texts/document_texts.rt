//! Texts of outside: each is what Python 3 writes by
//! json.dumps(document, sort_keys=True, separators=(',', ':'), ensure_ascii=False).

pub(super) const STOPS: &str =
    "{\"@id\":\"http://lc.example/stops\",\"changes\":[{\"from\":\"A\",\"seconds\":120,\"to\":\"B\"},{\"from\":\"A\",\"seconds\":4294967295,\"to\":\"京\"},{\"from\":\"B\",\"seconds\":1,\"to\":\"A\"}],\"stops\":[{\"id\":\"A\",\"name\":\"Alpha\",\"parent\":\"P\"},{\"id\":\"B\",\"name\":\"quote \\\" backslash \\\\ tab\\t bell\\u0007 line\\n del\x7f é ü 😀\"},{\"id\":\"P\",\"name\":\"\"},{\"id\":\"京\",\"name\":\"xxxxxxxxxxxxxxxxxxxxxxxxxxxxxxxxxxxxxxxxxxxxxxxxxxxxxxxxxxxxxxxxxxxxxxxxxxxxxxxxxxxxxxxxxxxxxxxxxxxxxxxxxxxxxxxxxxxxxxxxxxxxxxxxxxxxxxxxxxxxxxxxxxxxxxxxxxxxxxxxxxxxxxxxxxxxxxxxxxxxxxxxxxxxxxxxxxxxxxxxxxxxxxxxxxxxxxxxxxxxxxxxxxxxxxxxxxxxxxxxxxxxxxxxxxxxxxxxxxxxxxxxxxxxxxxxxxxxxxxxxxxxxxxxxxxxxxxxxxxx\"}]}";

// Texts of which is said what is read: the counts of stops and of changes, or the first fault.
pub(super) const DOCUMENTS: [&str; 44] = [
    "",
    "[1",
    "[]",
    "{}",
    "{\"changes\":[]}",
    "{\"stops\":[]}",
    "{\"stops\":{},\"changes\":{}}",
    "{\"stops\":[],\"changes\":{}}",
    "{\"stops\":[1],\"changes\":1}",
    "{\"stops\":[{}],\"changes\":[]}",
    "{\"stops\":[{\"id\":\"\"}],\"changes\":[]}",
    "{\"stops\":[{\"id\":\"A\",\"name\":1}],\"changes\":[]}",
    "{\"stops\":[{\"id\":\"A\",\"parent\":\"\"}],\"changes\":[]}",
    "{\"stops\":[{\"id\":\"A\",\"parent\":\"B\"}],\"changes\":[]}",
    "{\"stops\":[{\"id\":\"A\",\"parent\":\"A\"}],\"changes\":[]}",
    "{\"stops\":[{\"id\":\"A\"},{\"id\":\"A\"}],\"changes\":[]}",
    "{\"stops\":[{\"id\":\"A\"},{\"id\":\"C\"},{\"id\":\"B\"}],\"changes\":[]}",
    "{\"stops\":[{\"id\":\"B\"},{\"id\":\"A\",\"parent\":\"C\"}],\"changes\":[]}",
    "{\"stops\":[{\"id\":\"B\",\"parent\":\"A\"},{\"id\":\"A\"}],\"changes\":[]}",
    "{\"stops\":[{\"id\":\"B\"},{\"id\":\"A\"}]}",
    "{\"stops\":[{\"id\":\"A\",\"name\":2,\"parent\":2}]}",
    "{\"stops\":[{\"name\":2}]}",
    "{\"stops\":[{\"id\":\"A\",\"parent\":\"C\"},{\"id\":1}]}",
    "{\"stops\":[{\"id\":\"A\"},{\"id\":\"B\"}],\"changes\":[1]}",
    "{\"stops\":[{\"id\":\"A\"},{\"id\":\"B\"}],\"changes\":[{}]}",
    "{\"stops\":[{\"id\":\"A\"},{\"id\":\"B\"}],\"changes\":[{\"from\":1}]}",
    "{\"stops\":[{\"id\":\"A\"},{\"id\":\"B\"}],\"changes\":[{\"from\":\"C\"}]}",
    "{\"stops\":[{\"id\":\"A\"},{\"id\":\"B\"}],\"changes\":[{\"from\":\"A\"}]}",
    "{\"stops\":[{\"id\":\"A\"},{\"id\":\"B\"}],\"changes\":[{\"from\":\"A\",\"seconds\":0}]}",
    "{\"stops\":[{\"id\":\"A\"},{\"id\":\"B\"}],\"changes\":[{\"from\":\"A\",\"seconds\":4294967296}]}",
    "{\"stops\":[{\"id\":\"A\"},{\"id\":\"B\"}],\"changes\":[{\"from\":\"A\",\"seconds\":1.0}]}",
    "{\"stops\":[{\"id\":\"A\"},{\"id\":\"B\"}],\"changes\":[{\"from\":\"A\",\"seconds\":-1}]}",
    "{\"stops\":[{\"id\":\"A\"},{\"id\":\"B\"}],\"changes\":[{\"from\":\"A\",\"seconds\":1}]}",
    "{\"stops\":[{\"id\":\"A\"},{\"id\":\"B\"}],\"changes\":[{\"from\":\"A\",\"seconds\":1,\"to\":\"\"}]}",
    "{\"stops\":[{\"id\":\"A\"},{\"id\":\"B\"}],\"changes\":[{\"from\":\"A\",\"seconds\":1,\"to\":\"C\"}]}",
    "{\"stops\":[{\"id\":\"A\"},{\"id\":\"B\"}],\"changes\":[{\"from\":\"A\",\"seconds\":4294967295,\"to\":\"B\"}]}",
    "{\"stops\":[{\"id\":\"A\"},{\"id\":\"B\"}],\"changes\":[{\"from\":\"A\",\"seconds\":1,\"to\":\"B\"},{\"from\":\"A\",\"seconds\":2,\"to\":\"B\"}]}",
    "{\"stops\":[{\"id\":\"A\"},{\"id\":\"B\"}],\"changes\":[{\"from\":\"A\",\"seconds\":1,\"to\":\"B\"},{\"from\":\"A\",\"seconds\":2,\"to\":\"A\"}]}",
    "{\"stops\":[{\"id\":\"A\"},{\"id\":\"B\"}],\"changes\":[{\"from\":\"A\",\"seconds\":1,\"to\":\"B\"},{\"from\":\"B\",\"seconds\":2,\"to\":\"A\"}]}",
    "{\"stops\":[{\"id\":\"A\"},{\"id\":\"B\"}],\"changes\":[{\"from\":\"B\",\"seconds\":1,\"to\":\"B\"},{\"from\":\"A\",\"seconds\":2,\"to\":\"C\"}]}",
    "{\"stops\":[{\"id\":\"A\"},{\"id\":\"B\"}],\"changes\":[{\"from\":\"C\",\"to\":\"C\"}]}",
    "{\"stops\":[{\"id\":\"A\"},{\"id\":\"B\"}],\"changes\":[{\"from\":\"A\",\"seconds\":0,\"to\":\"C\"}]}",
    // Escapes, in the name of a member too, are what they mean (RFC 8259, section 7).
    "{\"stops\":[{\"\\u0069d\":\"\\u0041\"}],\"changes\":[{\"from\":\"A\",\"seconds\":1,\"to\":\"A\"}]}",
    "{\"stops\":[{\"id\":\"\\ud83d\\uDE00\"}],\"changes\":[{\"from\":\"😀\",\"seconds\":1,\"to\":\"😀\"}]}",
];
