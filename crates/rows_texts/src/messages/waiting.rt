//! What is said of bytes that may be the front of a request: within a target, and how many are waited for.
use super::taking::{put_answer, put_taken_of};
use http_text::HeadRoom;
use rows_common::{Draft, Unmade};
use std::alloc::Global;

/// Bytes of a target that are no UTF-8: within a target, after it, and where no target is.
const NO_TEXT: [&[u8]; 8] = [
    b"GET /\xff",
    b"\r\n\nGET \xff",
    b"GET /\xc3",
    b"GET /\xff ",
    b"GET /\xff HTTP/1.1\r\nHost: x\r\n\r\n",
    b"GET /\xff\x7f",
    b"GET\xff /",
    b"\r GET /\xff",
];

/// How many bytes end inside such a target.
const LONG_TARGETS: [usize; 3] = [16_383, 16_384, 16_385];

/// Bytes that have come: those that need more for another answer than "not yet", and those that do not.
const WAITS: [&str; 5] = [
    "",
    "GET / HTTP/1.1\r\nHost: x\r\n",
    "GET / HTTP/1.1\r\nHost: x\r\nContent-Length: 2\r\n\r\n",
    "GET / HTTP/1.1\r\nHost: x\r\n\r\n",
    "GET * HTTP/1.1\r\nHost: x\r\n\r\n",
];

/// A line for each row of these tables.
pub(super) fn put_waiting(alloc: Global, draft: &mut Draft, room: &mut HeadRoom) {
    for bytes in &NO_TEXT {
        put_taken_of(draft, room, *bytes);
    }
    for length in &LONG_TARGETS {
        put_long_target(alloc, draft, room, *length);
    }
    for bytes in &WAITS {
        // How many bytes in all another answer than "not yet" needs.
        let _taken = room.take_request(bytes.as_bytes());
        draft.put_quoted(bytes.as_bytes());
        draft.put(": waits for ");
        draft.put_shown(&room.waits_for());
        draft.put("\n");
    }
}

fn put_long_target(alloc: Global, draft: &mut Draft, room: &mut HeadRoom, length: usize) {
    draft.put_shown(&length);
    draft.put(" bytes up to within a target");
    match long_target(alloc, length) {
        Ok(bytes) => put_answer(draft, room.take_request(bytes.as_slice())),
        Err(Unmade) => draft.lose(),
    }
}

/// This many bytes that end inside a target that is no UTF-8.
fn long_target(alloc: Global, length: usize) -> Result<Vec<u8>, Unmade> {
    let mut bytes = Vec::new(alloc);
    for place in 0..length {
        bytes.push(b"GET /".get(place).copied().unwrap_or(0xff))?;
    }
    Ok(bytes)
}
