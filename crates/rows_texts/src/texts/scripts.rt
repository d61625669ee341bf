//! Texts and the scripts that they say: each record well and badly said, and what `csv` makes of a text.
use journey_text::{Record, read_script};
use lc_model::{NoMemory, PlainData, Query};
use rows_common::Draft;
use std::alloc::Global;

// A moment, for which `@` is short in the tables below.
const MOMENT: &str = "2024-05-01T08:00:00Z";

// Texts of scripts.
const SCRIPTS: [&str; 27] = [
    // Questions.
    "ask,A,D,@",
    "ask,A,A,@,\n",
    "ask,A,D,@,,",
    "ask,A,D,@,@",
    "ask,A,D,@,@,",
    "ask,A,D,@,,0",
    "ask,A,D,@,@,0000604800",
    "ask,A,D,@,,4294967295",
    "ask,A,D,2024-05-01T08:00:00.000Z",
    "ask,A,D,1970-01-11T00:00:00Z",
    "ask,A,D,9999-12-14T23:59:59Z,1970-01-01T00:00:00Z",
    // Messages.
    "update,d60.pb",
    "update,",
    "update,-\nupdate,-\n",
    // Turns.
    "ask,A,D,@\nturn,1",
    "ask,A,D,@\nask,D,A,@\nturn,2\nturn,0000000001\nturn,2\n",
    "ask,A,D,@\nturn,1\nupdate,m\nask,D,A,@\nturn,2\n",
    // No records; line ends and empty lines.
    "",
    "\n\r\n\n",
    "\u{FEFF}",
    "\nask,A,D,@\r\n\r\nturn,1\rturn,1",
    // Quotes, and spaces at both ends, inside quotes too.
    "\"ask\",\"A, \"\"x\"\"\",\"D\nE\",@",
    " ask ,  A b ,\" D \", @ ,  , 60 ",
    "ask,\tA,D\u{A0},@",
    "update,  m n  ",
    // A byte-order mark at the start is dropped, and only one.
    "\u{FEFF}ask,A,D,@",
    "\u{FEFF}update,\u{FEFF}m",
];

// Texts that say no script, of which is said the first row that says no record.
const WRONG: [&[u8]; 44] = [
    // There is no header.
    b"kind,from,to,moment\nask,A,D,@\n",
    // A word that begins no record, or another number of fields.
    b"ask",
    b"ask,A,D",
    b"ask,A,D,@,,,",
    b"Ask,A,D,@",
    b"asks,A,D,@",
    b",ask,A,D,@",
    b"  \n",
    b"\"\"",
    b"update",
    b"update,m,",
    b"ask,A,D,@\nturn",
    b"ask,A,D,@\nturn,1,",
    b"ask,A,D,@\n1",
    // A stop that is empty.
    b"ask,,D,@",
    b"ask,A,,@",
    b"ask,A,\"  \",@",
    // A moment that is none, or is outside the range of questions.
    b"ask,A,D,",
    b"ask,A,D,2024-05-01",
    b"ask,A,D,2024-05-01T08:00:00",
    b"ask,A,D,2024-05-01t08:00:00Z",
    b"ask,A,D,1970-01-10T23:59:59Z",
    b"ask,A,D,9999-12-15T00:00:00Z",
    // A known moment or a horizon that is none.
    b"ask,A,D,@,60",
    b"ask,A,D,@,-",
    b"ask,A,D,@,,4294967296",
    b"ask,A,D,@,,00000086400",
    b"ask,A,D,@,,+1",
    b"ask,A,D,@,,6 0",
    // A turn of nobody who asked before.
    b"turn,1",
    b"turn,1\nask,A,D,@",
    b"ask,A,D,@\nturn,0",
    b"ask,A,D,@\nturn,2",
    b"ask,A,D,@\nturn,3\nask,A,D,@\nask,A,D,@",
    b"ask,A,D,@\nturn,4294967297",
    b"ask,A,D,@\nturn,",
    b"ask,A,D,@\nturn,A",
    // Of several the first; empty lines do not count.
    b"ask,A,D,@\n\n\r\nturn,1\nturn,2\nx",
    b"\xEF\xBB\xBF\xEF\xBB\xBFask,A,D,@",
    // A field that is not UTF-8.
    b"ask,\xFF,D,@",
    b"ask,A,\xC3,@\nx",
    b"ask,A,D,@\nupdate,\xED\xA0\x80",
    b"x\nupdate,\xFF",
    b"ask,A,D,@\n\xFF",
];

// Texts that name a message where none may be named.
const NO_MESSAGES: [&str; 3] = [
    "update,m",
    "ask,A,D,@\nturn,1\nupdate,m\n",
    "turn,1\nupdate,m\n",
];

/// Lines for each of these tables.
pub(super) fn put_scripts(alloc: Global, draft: &mut Draft) {
    for row in &SCRIPTS {
        put_script(alloc, draft, row.as_bytes());
    }
    for row in &WRONG {
        draft.put_quoted(*row);
        put_row(alloc, draft, *row, true);
    }
    for row in &NO_MESSAGES {
        draft.put_quoted(row.as_bytes());
        draft.put(" where no message may be named");
        put_row(alloc, draft, row.as_bytes(), false);
    }
}

/// The end of a line: what a row says, or its fault.
fn put_row(alloc: Global, draft: &mut Draft, row: &[u8], updates: bool) {
    match with_moment(alloc, row) {
        Ok(bytes) => put_outcome(draft, &said(alloc, bytes.as_slice(), updates)),
        Err(NoMemory) => draft.lose(),
    }
}

fn put_outcome(draft: &mut Draft, said: &Draft) {
    draft.also(said);
    draft.put(": ");
    draft.put_escaped(said.as_bytes());
    draft.put("\n");
}

/// The bytes with the moment in place of each `@`.
fn with_moment(alloc: Global, bytes: &[u8]) -> Result<Vec<u8>, NoMemory> {
    let mut whole = Vec::new(alloc);
    for byte in bytes {
        push_with_moment(&mut whole, *byte)?;
    }
    Ok(whole)
}

fn push_with_moment(whole: &mut Vec<u8>, byte: u8) -> Result<(), NoMemory> {
    let bytes = [byte];
    let piece = if byte == b'@' {
        MOMENT.as_bytes()
    } else {
        bytes.as_slice()
    };
    Ok(whole.extend_from_slice(piece)?)
}

/// What a text says, or its fault.
fn said(alloc: Global, bytes: &[u8], updates: bool) -> Draft {
    let mut said = Draft::new(alloc);
    match read_script(alloc, bytes, updates) {
        Ok(script) => {
            said.need(script.copy(alloc));
            for record in script.as_slice() {
                put_record(&mut said, record);
            }
        }
        Err(fault) => said.put_shown(&fault),
    }
    said
}

fn put_record(said: &mut Draft, record: &Record) {
    match record {
        Record::Ask(query) => put_question(said, query),
        Record::Update(file) => {
            said.put("update ");
            said.put(file.as_str());
        }
        Record::Turn(client) => {
            said.put("turn ");
            said.put_shown(client);
        }
    }
    said.put(". ");
}

fn put_question(said: &mut Draft, query: &Query) {
    said.put_all(&["ask ", query.from.as_str(), " ", query.to.as_str(), " "]);
    said.put_shown(&query.leave.seconds());
    said.put(" ");
    match query.known {
        Some(known) => said.put_shown(&known.seconds()),
        None => said.put("-"),
    }
    said.put(" ");
    said.put_shown(&query.horizon);
}

fn put_script(alloc: Global, draft: &mut Draft, row: &[u8]) {
    match with_moment(alloc, row) {
        Ok(bytes) => put_script_of(alloc, draft, row, bytes.as_slice()),
        Err(NoMemory) => draft.lose(),
    }
}

/// A line with what a row says where messages may be named, and one with whether it says the same where they may not.
fn put_script_of(alloc: Global, draft: &mut Draft, row: &[u8], bytes: &[u8]) {
    let with = said(alloc, bytes, true);
    let without = said(alloc, bytes, false);
    draft.also(&without);
    draft.put_quoted(row);
    put_outcome(draft, &with);
    draft.put_quoted(row);
    draft.put(" says the same where no message may be named: ");
    draft.put_shown(&(with.as_str() == without.as_str()));
    draft.put("\n");
}
