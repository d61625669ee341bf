//! Requests that are taken from the bytes that have come.
use super::recorded::{CURL, CURL_1_0, CURL_HEAD, CURL_POST, CURL_PROXY, NGINX, WGET, WRK};
use http_text::{HeadRoom, Taken, take_request};
use rows_common::Draft;
use std::alloc::Global;

/// Requests that are whole.
const WHOLE: [&str; 9] = [
    "GET / HTTP/1.1\r\nHost: x\r\n\r\n",
    "GET / HTTP/1.1\r\nHost: x\r\n\r\nGET",
    "GET / HTTP/1.1\nHost: x\n\n",
    "\r\n\n\r\nGET / HTTP/1.1\r\nHost: x\r\n\r\n",
    "GET / HTTP/1.0\r\n\r\n",
    "GET / HTTP/1.1\r\nhOST: x\r\nCONTENT-length: 2\r\n\r\nab",
    "GET / HTTP/1.1\r\nHost: x\r\nContent-Length: 0000000002\r\n\r\nab",
    "GET HTTP://lc.example HTTP/1.1\r\nHost: x\r\n\r\n",
    "GET http://lc.example/a?b HTTP/1.1\r\nHost: x\r\n\r\n",
];

/// Fronts of requests.
const OPEN: [&str; 5] = [
    "GET / HTTP/1.1\r\nHost: x\r\nContent-Length: 2\r\n\r\na",
    "GET / HTTP/1.1\r\nHost: x\r\nContent-Length: 16777216\r\n\r\n",
    "",
    "\r",
    "GET / HTTP/1.1\r\nHost: x\r\n",
];

/// Heads that are refused.
const REFUSED: [&str; 28] = [
    "GET / HTTP/1.1\r\nHost: x\r\nContent-Length: 16777217\r\n\r\n",
    "GET / HTTP/1.1\r\nHost: x\r\nContent-Length: 2, 2\r\n\r\nab",
    "GET / HTTP/1.1\r\nHost: x\r\nContent-Length: 00000000002\r\n\r\nab",
    "GET / HTTP/1.1\r\nHost: x\r\nContent-Length: +2\r\n\r\nab",
    "GET / HTTP/1.1\r\nHost: x\r\nContent-Length:\r\n\r\n",
    "GET / HTTP/1.1\r\nHost: x\r\nContent-Length: 2\r\ncontent-length: 2\r\n\r\nab",
    "GET / HTTP/1.1\r\nHost: x\r\ntransfer-ENCODING: identity\r\n\r\n",
    "GET / HTTP/1.1\r\n\r\n",
    "GET / HTTP/1.1\r\nHost: x\r\nHost: x\r\n\r\n",
    "GET * HTTP/1.1\r\nHost: x\r\n\r\n",
    "GET stops HTTP/1.1\r\nHost: x\r\n\r\n",
    "GET https://x/ HTTP/1.1\r\nHost: x\r\n\r\n",
    "GET / HTTP/2.0\r\nHost: x\r\n\r\n",
    "GET / HTTP/1.1\r\nHost: x\r\nA: b\r\n c\r\n\r\n",
    "GET / HTTP/1.1\r\nHost: x\r\nA: \0\r\n\r\n",
    "GET / HTTP/1.1\r\nHost : x\r\n\r\n",
    "GET  / HTTP/1.1\r\nHost: x\r\n\r\n",
    // The first test that fails decides, in whatever order the fields are.
    "GET * HTTP/1.1\r\nContent-Length: x\r\nTransfer-Encoding: chunked\r\n\r\n",
    "GET * HTTP/1.1\r\nTransfer-Encoding: chunked\r\nContent-Length: x\r\n\r\n",
    "GET / HTTP/1.1\r\nHost: x\r\nHost: x\r\nTransfer-Encoding: chunked\r\n\r\n",
    "GET / HTTP/1.1\r\nTransfer-Encoding: chunked\r\nHost: x\r\nHost: x\r\n\r\n",
    "GET / HTTP/1.1\r\nHost: x\r\nContent-Length: 99999999\r\nTransfer-Encoding: chunked\r\n\r\n",
    "GET / HTTP/1.1\r\nHost: x\r\nTransfer-Encoding: chunked\r\nContent-Length: 99999999\r\n\r\n",
    "GET / HTTP/1.1\r\nHost: x\r\nHost: x\r\nContent-Length: 99999999\r\n\r\n",
    "GET / HTTP/1.1\r\nContent-Length: 99999999\r\nHost: x\r\nHost: x\r\n\r\n",
    "GET * HTTP/1.1\r\nHost: x\r\nContent-Length: 99999999\r\n\r\n",
    "GET / HTTP/1.1\r\nContent-Length: 99999999\r\n\r\n",
    "GET / HTTP/1.1\r\nContent-Length: 99999999\r\nContent-Length: 1\r\n\r\n",
];

/// Requests of real clients, which are whole as they are.
const RECORDED: [&str; 8] = [
    CURL, CURL_1_0, CURL_HEAD, CURL_POST, CURL_PROXY, WGET, WRK, NGINX,
];

/// A line for each of these texts, and for the fronts of two requests.
pub(super) fn put_taken(alloc: Global, draft: &mut Draft, room: &mut HeadRoom) {
    put_each(draft, room, &WHOLE);
    put_each(draft, room, &OPEN);
    put_each(draft, room, &REFUSED);
    put_each(draft, room, &RECORDED);
    draft.put("in room of its own");
    match take_request(alloc, WRK.as_bytes()) {
        Ok(taken) => put_answer(draft, taken),
        Err(_) => draft.lose(),
    }
    put_fronts(alloc, draft, room);
}

fn put_each(draft: &mut Draft, room: &mut HeadRoom, table: &[&str]) {
    for bytes in table {
        put_taken_of(draft, room, bytes.as_bytes());
    }
}

/// A line with what is at the front of the bytes.
pub(super) fn put_taken_of(draft: &mut Draft, room: &mut HeadRoom, bytes: &[u8]) {
    draft.put_quoted(bytes);
    put_answer(draft, room.take_request(bytes));
}

/// The end of the line of a case: what was taken.
pub(super) fn put_answer(draft: &mut Draft, taken: Taken) {
    match taken {
        Taken::Whole { length } => put_number(draft, ": whole, ", length),
        Taken::NotYet => draft.put(": not yet\n"),
        Taken::Refused { status } => put_number(draft, ": refused, ", status as usize),
    }
}

fn put_number(draft: &mut Draft, name: &str, number: usize) {
    draft.put(name);
    draft.put_shown(&number);
    draft.put("\n");
}

/// Lines for the fronts of two requests, one after the other.
fn put_fronts(alloc: Global, draft: &mut Draft, room: &mut HeadRoom) {
    let mut both = Draft::new(alloc);
    both.put(CURL_POST);
    both.put(WGET);
    draft.also(&both);
    put_fronts_of(draft, room, both.as_bytes());
}

/// A line for each front of which another is taken than of the one before it, and one with how many fronts there are.
fn put_fronts_of(draft: &mut Draft, room: &mut HeadRoom, both: &[u8]) {
    let mut last = None;
    for cut in 0..both.len() {
        let taken = room.take_request(&both[..cut]);
        if last != Some(taken) {
            put_front(draft, cut, taken);
            last = Some(taken);
        }
    }
    put_number(draft, "fronts of two requests: ", both.len());
}

fn put_front(draft: &mut Draft, cut: usize, taken: Taken) {
    draft.put("from ");
    draft.put_shown(&cut);
    draft.put(" bytes of two requests");
    put_answer(draft, taken);
}
