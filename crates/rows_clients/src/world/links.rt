//! A link that gives the replies of a list.
use crate::making::{bytes, list_link};
use crate::said::put_named;
use lc_world::{Entry, Link, LinkFail, ListLink, RecordedReply};
use rows_common::{Draft, Unmade};
use std::alloc::Global;

/// What is done with a link.
enum Step {
    /// A request is asked at lc.example.
    Ask(&'static str),
    /// An authority and a request, which is handed on.
    Pass(&'static str, &'static str),
    /// What was replied is marked.
    Mark,
    /// The faults are counted.
    Faults,
}

/// What each exchange leaves until two replies are used up, and then.
static USED_UP: [Step; 7] = [
    Step::Ask("GET 1"),
    Step::Pass("lc.example", "GET 2"),
    Step::Mark,
    Step::Pass("lc.example:80", "GET 3"),
    Step::Faults,
    Step::Ask("GET 4"),
    Step::Faults,
];

/// Over one reply, where the calls 1 and 3 fail. The call between these gives the reply, and the last call leaves the answer.
static FAILING: [Step; 6] = [
    Step::Ask("GET 1"),
    Step::Ask("GET 2"),
    Step::Pass("lc.example", "GET 3"),
    Step::Mark,
    Step::Pass("lc.example", "GET 4"),
    Step::Faults,
];

/// What was replied is recorded, also an answer that is left as it is.
pub(super) fn put_links(alloc: Global, draft: &mut Draft) {
    let replies = list_link(alloc, &["one", "two"]);
    put_steps(alloc, draft, replies, b"what was there", &USED_UP);
    put_steps(alloc, draft, failing(alloc), b"", &FAILING);
}

fn failing(alloc: Global) -> Result<ListLink, Unmade> {
    let only = bytes(alloc, "one")?;
    let replies = vec![in alloc; only]?;
    let fails = vec![in alloc; 1u64, 3]?;
    Ok(ListLink::with_fails(alloc, replies, fails)?)
}

/// A line for each step, after which the reply is what was there before the first one, and for all that is recorded.
fn put_steps(
    alloc: Global,
    draft: &mut Draft,
    made: Result<ListLink, Unmade>,
    there: &[u8],
    steps: &[Step],
) {
    let mut link = match made {
        Ok(link) => link,
        Err(Unmade) => return draft.lose(),
    };
    let mut reply = Vec::new(alloc);
    draft.need(reply.extend_from_slice(there));
    for step in steps {
        put_step(alloc, draft, &mut link, &mut reply, step);
    }
    put_recorded(draft, link.recorded());
}

fn put_step(
    alloc: Global,
    draft: &mut Draft,
    link: &mut ListLink,
    reply: &mut Vec<u8>,
    step: &Step,
) {
    match step {
        Step::Ask(request) => {
            let asked = link.exchange(alloc, "lc.example", request.as_bytes(), reply);
            put_came(draft, "asked: ", asked, reply.as_slice());
        }
        Step::Pass(authority, request) => {
            let passed = link.pass(alloc, authority, request.as_bytes(), reply);
            put_came(draft, "handed on: ", passed, reply.as_slice());
        }
        Step::Mark => draft.need(reply.push(b'!')),
        Step::Faults => {
            put_named(draft, "faults of the link: ", &link.faults());
            draft.put("\n");
        }
    }
}

fn put_came(draft: &mut Draft, name: &str, came: Result<(), LinkFail>, reply: &[u8]) {
    draft.put(name);
    match came {
        Ok(()) => draft.put("done"),
        Err(LinkFail::Failed) => draft.put("failed"),
        Err(LinkFail::NoMemory) => draft.lose(),
    }
    draft.put("\nreply: ");
    draft.put_escaped(reply);
    draft.put("\n");
}

/// The exchanges that the link records, after their number.
fn put_recorded(draft: &mut Draft, recorded: &[Entry]) {
    put_named(draft, "recorded exchanges: ", &recorded.len());
    draft.put("\n");
    for entry in recorded {
        put_entry(draft, entry);
    }
}

fn put_entry(draft: &mut Draft, entry: &Entry) {
    draft.put_all(&["recorded authority: ", entry.authority.as_str(), "\n"]);
    draft.put("recorded request: ");
    draft.put_escaped(entry.request.as_slice());
    draft.put("\nrecorded reply: ");
    draft.put_escaped(reply_of(entry));
    draft.put("\n");
}

/// The reply of an entry, in a word where there is none.
fn reply_of(entry: &Entry) -> &[u8] {
    match &entry.reply {
        RecordedReply::Hidden => b"(hidden)",
        RecordedReply::Failed => b"(failed)",
        RecordedReply::Reply(reply) => reply.as_slice(),
    }
}
