//! Texts that are an answer's, by hand from the small feed, and texts near them that are none.
use crate::written::put_written;
use journey_text::{answer_text, read_answer};
use lc_model::Answer;
use rows_common::Draft;
use std::alloc::Global;

const FIRST: &str = "journey 2 arrives 2024-05-01T08:31:00.000Z
ride T1 20240501 - 1 1 A 2024-05-01T08:00:00.000Z B 2024-05-01T08:10:00.000Z
ride T3 20240501 - 1 1 B 2024-05-01T08:12:00.000Z D 2024-05-01T08:31:00.000Z
";

const WALK_FIRST: &str = "journey 1 arrives 2024-05-01T09:10:00.000Z
walk B E 300
ride T4 20240501 - 1 1 E 2024-05-01T09:00:00.000Z F 2024-05-01T09:10:00.000Z
";

const WALK_LAST: &str = "journey 1 arrives 2024-05-01T08:32:00.000Z
ride a%2Fb%20%C3%BC 20240501 073000 5 4294967295 B 2024-05-01T08:12:00.000Z D 2024-05-01T08:31:00.000Z
walk D F 60
";

/// A text, and what is in it in place of what, and makes it no answer's.
const OTHER: [(&str, &str, &str); 19] = [
    ("no journey\n", "\n", ""),
    ("no journey\n", "\n", "\n\n"),
    ("no journey\n", "no", " no"),
    (FIRST, "08:31:00.000Z\nride", "08:31:01.000Z\nride"),
    (FIRST, "journey 2", "journey 1"),
    (FIRST, "journey 2", "journey 02"),
    (FIRST, " - 1 1 A", " - 01 1 A"),
    (
        FIRST,
        "D 2024-05-01T08:31:00.000Z\n",
        "D 2024-05-01T08:31:00.000Z",
    ),
    (
        FIRST,
        "D 2024-05-01T08:31:00.000Z\n",
        "D 2024-05-01T08:31:00Z\n",
    ),
    (FIRST, "ride T1", "ride  T1"),
    (FIRST, "ride T1", "walk T1"),
    (FIRST, "\nride T3", " ride T3"),
    (FIRST, "20240501 -", "20240230 -"),
    (WALK_FIRST, "walk B E 300\n", "walk B E\n"),
    (WALK_FIRST, "walk B E 300", "walk B E 4294967296"),
    (WALK_LAST, "%2F", "%2f"),
    (WALK_LAST, "073000", "7:30:00"),
    (WALK_LAST, "walk D F 60", "walk D F 61"),
    ("journey 0 arrives 1970-01-01T00:00:00.000Z\n", "\n", "\n"),
];

/// Lines for answers that are read back, and for texts that are none.
pub(super) fn put_answers(alloc: Global, draft: &mut Draft) {
    for said in &["no journey\n", FIRST, WALK_FIRST, WALK_LAST] {
        put_answer_again(alloc, draft, said.as_bytes());
    }
    put_no_journey(alloc, draft);
    for &(whole, from, to) in &OTHER {
        put_other(alloc, draft, whole, from, to);
    }
}

fn put_no_journey(alloc: Global, draft: &mut Draft) {
    draft.put("no journey is said: ");
    let read = read_answer(alloc, b"no journey\n");
    draft.put_shown(&matches!(read, Ok(Some(Answer::NoJourney))));
    draft.put("\n");
}

fn put_other(alloc: Global, draft: &mut Draft, whole: &str, from: &str, to: &str) {
    match whole.replace(alloc, from, to) {
        Ok(broken) => put_read(alloc, draft, broken.as_str().as_bytes()),
        Err(_) => draft.lose(),
    }
}

/// A line with the text of the answer that was read of a text.
fn put_answer_again(alloc: Global, draft: &mut Draft, said: &[u8]) {
    match read_answer(alloc, said) {
        Ok(Some(answer)) => {
            put_written(draft, "answer written again: ", answer_text(alloc, &answer));
        }
        _ => draft.lose(),
    }
}

/// A line with whether an answer is read.
fn put_read(alloc: Global, draft: &mut Draft, bytes: &[u8]) {
    draft.put_quoted(bytes);
    match read_answer(alloc, bytes) {
        Ok(Some(_)) => draft.put(": an answer\n"),
        Ok(None) => draft.put(": none\n"),
        Err(_) => draft.lose(),
    }
}
