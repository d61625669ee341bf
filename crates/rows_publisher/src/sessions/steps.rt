//! What happens on the connections of the cases, each with a session of its own over one publisher.
use super::tables::{Case, Step};
use fragmenter::Cutting;
use lc_model::NoMemory;
use publisher::Publisher;
use rows_common::Draft;
use std::alloc::Global;
use wire_session::{Fed, Session};

/// The lines of a connection.
pub(super) fn put_case(
    alloc: Global,
    draft: &mut Draft,
    publisher: &mut Publisher<Cutting>,
    &(name, table): &Case,
) {
    match Session::new(alloc) {
        Ok(mut session) => put_steps(alloc, draft, publisher, &mut session, name, table),
        Err(_) => draft.lose(),
    }
}

fn put_steps(
    alloc: Global,
    draft: &mut Draft,
    publisher: &mut Publisher<Cutting>,
    session: &mut Session,
    name: &str,
    table: &[Step],
) {
    for step in table {
        draft.put(name);
        put_step(alloc, draft, publisher, session, *step);
        put_session(draft, session);
    }
}

/// What happens.
fn put_step(
    alloc: Global,
    draft: &mut Draft,
    publisher: &mut Publisher<Cutting>,
    session: &mut Session,
    step: Step,
) {
    match step {
        Step::Comes(bytes) => put_fed(draft, session.feed(alloc, publisher, bytes)),
        Step::ComesBy(bytes, size) => put_pieces(alloc, draft, publisher, session, bytes, size),
        Step::Sends(count) => send(draft, session, count),
        Step::SendsAll => send(draft, session, session.pending().len()),
    }
}

/// The bytes in pieces of a size, and that the connection ends, where it does.
fn put_pieces(
    alloc: Global,
    draft: &mut Draft,
    publisher: &mut Publisher<Cutting>,
    session: &mut Session,
    bytes: &[u8],
    size: usize,
) {
    for piece in bytes.chunks(size.max(1)) {
        let had_ended = session.ended();
        let fed = session.feed(alloc, publisher, piece);
        if session.ended() && !had_ended {
            put_fed(draft, fed);
        }
    }
}

fn put_fed(draft: &mut Draft, fed: Result<Fed, NoMemory>) {
    match fed {
        Ok(Fed::More) => draft.put(": more"),
        Ok(Fed::Ended) => draft.put(": ended"),
        Err(NoMemory) => draft.lose(),
    }
}

/// This many bytes are sent, or all.
fn send(draft: &mut Draft, session: &mut Session, count: usize) {
    let count = count.min(session.pending().len());
    session.sent(count);
    draft.put(": sent ");
    draft.put_shown(&count);
}

/// Whether the session has ended, its number of replies, and what is to be sent.
fn put_session(draft: &mut Draft, session: &Session) {
    draft.put(if session.ended() {
        ", over, replies "
    } else {
        ", on, replies "
    });
    draft.put_shown(&session.requests());
    draft.put(", to send ");
    draft.put_quoted(session.pending());
    draft.put("\n");
}

/// How many bytes a head has that does not end, and of these its last value.
const LONG_HEADS: [(usize, usize); 2] = [(16_383, 16_355), (16_384, 16_356)];

/// Lines for heads that do not end, a byte below the limit of 16,384 bytes and at it, in pieces of a thousand bytes.
pub(super) fn put_long_heads(alloc: Global, draft: &mut Draft, publisher: &mut Publisher<Cutting>) {
    for &(length, value) in &LONG_HEADS {
        put_long_head(alloc, draft, publisher, length, value);
    }
}

fn put_long_head(
    alloc: Global,
    draft: &mut Draft,
    publisher: &mut Publisher<Cutting>,
    length: usize,
    value: usize,
) {
    let mut head = Draft::new(alloc);
    head.put("GET / HTTP/1.1\r\nHost: x\r\nA: ");
    head.put_times("a", value);
    draft.also(&head);
    draft.put("an open head of ");
    draft.put_shown(&length);
    draft.put(" bytes");
    put_in_pieces(alloc, draft, publisher, head.as_bytes());
}

/// A connection on which these bytes come in pieces of a thousand.
fn put_in_pieces(
    alloc: Global,
    draft: &mut Draft,
    publisher: &mut Publisher<Cutting>,
    bytes: &[u8],
) {
    match Session::new(alloc) {
        Ok(mut session) => {
            put_pieces(alloc, draft, publisher, &mut session, bytes, 1_000);
            put_session(draft, &session);
        }
        Err(_) => draft.lose(),
    }
}

const PLAIN: &str = "GET / HTTP/1.1\r\nHost: x\r\n\r\n";

/// Lines for 99 requests, and for two more.
pub(super) fn put_hundred(alloc: Global, draft: &mut Draft, publisher: &mut Publisher<Cutting>) {
    let mut requests = Draft::new(alloc);
    requests.put_times(PLAIN, 99);
    draft.also(&requests);
    match Session::new(alloc) {
        Ok(mut session) => {
            put_count(alloc, draft, publisher, &mut session, requests.as_bytes());
            put_count(alloc, draft, publisher, &mut session, PLAIN.as_bytes());
            put_count(alloc, draft, publisher, &mut session, PLAIN.as_bytes());
        }
        Err(_) => draft.lose(),
    }
}

/// Whether the session has ended after these bytes, its number of replies, and of the bytes that are to be sent.
fn put_count(
    alloc: Global,
    draft: &mut Draft,
    publisher: &mut Publisher<Cutting>,
    session: &mut Session,
    bytes: &[u8],
) {
    draft.put("a hundred");
    put_fed(draft, session.feed(alloc, publisher, bytes));
    draft.put(", replies ");
    draft.put_shown(&session.requests());
    draft.put(", bytes to send ");
    draft.put_shown(&session.pending().len());
    draft.put("\n");
}
