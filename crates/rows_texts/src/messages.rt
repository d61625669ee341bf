//! What is taken, read and written of messages of HTTP. There are heads as real clients send them, and rows after RFC 9112 and RFC 9110.
mod limits;
mod recorded;
mod replies;
mod replies_read;
mod requests;
mod taking;
mod waiting;

use http_text::HeadRoom;
use rows_common::Draft;
use std::alloc::Global;

/// A line for each case.
pub(crate) fn put_messages(alloc: Global, draft: &mut Draft) {
    match HeadRoom::new(alloc) {
        Ok(mut room) => put_requests(alloc, draft, &mut room),
        Err(_) => draft.lose(),
    }
    replies::put_replies(alloc, draft);
    replies_read::put_replies_read(alloc, draft);
}

fn put_requests(alloc: Global, draft: &mut Draft, room: &mut HeadRoom) {
    taking::put_taken(alloc, draft, room);
    waiting::put_waiting(alloc, draft, room);
    limits::put_limits(alloc, draft, room);
    requests::put_requests(alloc, draft, room);
}
