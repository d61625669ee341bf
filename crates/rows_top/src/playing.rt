//! What questions and scripts result in with messages, where each reply comes as the publisher gave it or a call fails.
use crate::running::{A_TO_D, Fails, over_tiny, put_failing, put_line, put_run};
use rows_common::Draft;
use std::alloc::Global;

/// Runs cases over the feed Tiny: arguments, and after them the rows of a script.
pub fn put_each(alloc: Global, draft: &mut Draft, cases: &str, between: &str) {
    for case in cases.split(between) {
        put_case(alloc, draft, case);
    }
}

fn put_case(alloc: Global, draft: &mut Draft, case: &str) {
    put_line(draft, case);
    let (words, script) = case.split_once('\n').unwrap_or((case, ""));
    put_script(alloc, draft, words, script);
}

fn put_script(alloc: Global, draft: &mut Draft, words: &str, script: &str) {
    put_run(alloc, draft, &over_tiny(words, &[("s.csv", script)]));
}

const SCRIPT: &str = "ask,A,D,2024-05-01T08:00:00Z\nask,A,D,2024-05-01T08:00:00Z\n";

/// What fails, and the arguments. The third exchange ends the client that made it. The other one has its answer. The status is that of the
/// first.
static FAILURES: [(&str, Fails, &str); 3] = [
    (
        "the third exchange fails",
        Fails {
            read: 0,
            exchange: 3,
            write: 0,
        },
        "replay tiny 20240501 s.csv",
    ),
    (
        "the third exchange for the latest departure fails",
        Fails {
            read: 0,
            exchange: 3,
            write: 0,
        },
        "arrive tiny A D 2024-05-01T08:31:00Z",
    ),
    (
        "the first write fails",
        Fails {
            read: 0,
            exchange: 0,
            write: 1,
        },
        A_TO_D,
    ),
];

pub fn put_failures(alloc: Global, draft: &mut Draft) {
    for (what, fails, words) in &FAILURES {
        put_failure(alloc, draft, *what, *fails, *words);
    }
    for read in 1..8 {
        put_unread(alloc, draft, read);
    }
}

fn put_failure(alloc: Global, draft: &mut Draft, what: &str, fails: Fails, words: &str) {
    put_line(draft, what);
    put_failing(alloc, draft, &over_tiny(words, &[("s.csv", SCRIPT)]), fails);
}

/// Seven files are read for a question, of which Tiny has four.
fn put_unread(alloc: Global, draft: &mut Draft, read: u64) {
    draft.put("read ");
    draft.put_shown(&read);
    draft.put(" fails\n");
    let fails = Fails {
        read,
        exchange: 0,
        write: 0,
    };
    put_failing(alloc, draft, &over_tiny(A_TO_D, &[]), fails);
}
