//! The limits of a head.
use super::taking::put_answer;
use http_text::{HeadRoom, Reply, ReplyFault, read_reply};
use rows_common::Draft;
use std::alloc::Global;

/// How long a value is, and what follows it.
const LONG_HEADS: [(usize, &str); 5] = [
    (16_351, "\r\n\r\n"),
    (16_352, "\r\n\r\n"),
    (16_353, "\r\n\r\n"),
    (16_355, ""),
    (16_356, ""),
];

const PLAIN: &str = "GET / HTTP/1.1\r\n";

const CHUNKED: &str = "GET / HTTP/1.1\r\nTransfer-Encoding: chunked\r\n";

/// The front of a head, and how many fields follow it.
const WIDE_HEADS: [(&str, usize); 5] = [
    (PLAIN, 100),
    (PLAIN, 101),
    (PLAIN, 4_000),
    (CHUNKED, 99),
    (CHUNKED, 100),
];

/// Lines for heads near each of the limits.
pub(super) fn put_limits(alloc: Global, draft: &mut Draft, room: &mut HeadRoom) {
    for &(value, end) in &LONG_HEADS {
        put_long_head(alloc, draft, room, value, end);
    }
    for &(front, fields) in &WIDE_HEADS {
        put_wide_head(alloc, draft, room, front, fields);
    }
    put_replies(alloc, draft, room);
}

fn put_long_head(alloc: Global, draft: &mut Draft, room: &mut HeadRoom, value: usize, end: &str) {
    draft.put("a value of ");
    draft.put_shown(&value);
    draft.put(" bytes and ");
    draft.put_quoted(end.as_bytes());
    let head = long_head(alloc, value, end);
    draft.also(&head);
    put_answer(draft, room.take_request(head.as_bytes()));
}

/// A head with a field of so many bytes.
fn long_head(alloc: Global, value: usize, end: &str) -> Draft {
    let mut head = Draft::new(alloc);
    head.put("GET / HTTP/1.1\r\nHost: x\r\nA: ");
    head.put_times("a", value);
    head.put(end);
    head
}

fn put_wide_head(
    alloc: Global,
    draft: &mut Draft,
    room: &mut HeadRoom,
    front: &str,
    fields: usize,
) {
    draft.put_quoted(front.as_bytes());
    draft.put(" and ");
    draft.put_shown(&fields);
    draft.put(" fields");
    let head = wide_head(alloc, front, fields);
    draft.also(&head);
    put_answer(draft, room.take_request(head.as_bytes()));
}

/// A head with so many fields.
fn wide_head(alloc: Global, line: &str, fields: usize) -> Draft {
    let mut head = Draft::new(alloc);
    head.put(line);
    head.put("Host: x\r\n");
    head.put_times("A:\r\n", fields.saturating_sub(1));
    head.put("\r\n");
    head
}

/// Lines for heads that are no reply's: with many fields, of a request, and long ones.
fn put_replies(alloc: Global, draft: &mut Draft, room: &mut HeadRoom) {
    draft.put("a reply of 101 fields");
    let wide = wide_head(alloc, "HTTP/1.1 200 OK\r\n", 101);
    draft.also(&wide);
    put_fault(draft, read_reply(alloc, wide.as_bytes()));
    draft.put("a request of 16357 bytes in a value, as a reply");
    let long = long_head(alloc, 16_357, "");
    draft.also(&long);
    put_fault(draft, room.read_reply(alloc, long.as_bytes()));
    put_long_reply(alloc, draft, room, 16_363);
    put_long_reply(alloc, draft, room, 16_364);
}

/// A line for the head of a reply that ends within its field.
fn put_long_reply(alloc: Global, draft: &mut Draft, room: &mut HeadRoom, value: usize) {
    let mut head = Draft::new(alloc);
    head.put("HTTP/1.1 200 OK\r\nA: ");
    head.put_times("a", value);
    draft.also(&head);
    draft.put_shown(&head.as_bytes().len());
    draft.put(" bytes of the head of a reply");
    put_fault(draft, room.read_reply(alloc, head.as_bytes()));
}

/// The end of a line: why the bytes are no reply.
fn put_fault(draft: &mut Draft, read: Result<Reply, ReplyFault>) {
    draft.put(": ");
    match read {
        Ok(_) => draft.put("a reply"),
        Err(fault) => draft.put_shown(&fault),
    }
    draft.put("\n");
}
