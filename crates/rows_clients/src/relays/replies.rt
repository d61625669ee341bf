//! Single requests over a relay: which replies are kept, byte by byte, and which is forgotten first.
use super::asking::{EIGHT, GATE, NINE, STOPS};
use super::relaying::over_tiny;
use crate::said::{first_line, put_named};
use lc_world::Link;
use page_relay::Relay;
use rows_common::{Draft, Unmade};
use std::alloc::Global;

/// Each request is asked twice, one after the other.
static TWICE: [(&str, &[u8]); 9] = [
    ("stops", STOPS),
    ("page", EIGHT),
    ("another query", NINE),
    ("time gate", GATE),
    ("HEAD", b"HEAD /stops HTTP/1.1\r\nHost: lc.example\r\n\r\n"),
    (
        "another header",
        b"GET /stops HTTP/1.1\r\nHost: lc.example\r\nConnection: close\r\n\r\n",
    ),
    (
        "no such version",
        b"GET /memento/connections?version=1970-01-02T00:00:00.000Z HTTP/1.1\r\nHost: lc.example\r\n\r\n",
    ),
    (
        "no such path",
        b"GET /stops/ HTTP/1.1\r\nHost: lc.example\r\n\r\n",
    ),
    ("not whole", b"GET /stops HTTP/1.1\r\nHost: lc.example\r\n"),
];

/// With room for two replies: the stops document is used again, so the page of 08:00 is forgotten for that of 09:00.
static IN_TURN: [&[u8]; 6] = [STOPS, EIGHT, STOPS, NINE, STOPS, EIGHT];

pub(super) fn put_replies(alloc: Global, draft: &mut Draft) {
    put_each_over(alloc, draft, over_tiny(alloc, 100));
    put_in_turn(alloc, draft, over_tiny(alloc, 2));
}

/// Each request over a relay, which ends here. Over any link, since one of a known type is dear to prove where it ends.
fn put_each_over<L: Link + Drop>(alloc: Global, draft: &mut Draft, made: Result<Relay<L>, Unmade>) {
    match made {
        Ok(mut link) => put_each(alloc, draft, &mut link),
        Err(Unmade) => draft.lose(),
    }
}

fn put_each<L: Link>(alloc: Global, draft: &mut Draft, link: &mut Relay<L>) {
    let mut first = Vec::new(alloc);
    let mut again = Vec::new(alloc);
    for &(name, request) in &TWICE {
        draft.put(name);
        put_exchange(alloc, draft, link, "lc.example", request, &mut first);
        put_exchange(alloc, draft, link, "lc.example", request, &mut again);
        put_alike(draft, first.as_slice(), again.as_slice());
    }
    // A kept request at another authority is handed on.
    draft.put("another authority");
    put_exchange(alloc, draft, link, "lc.example:80", STOPS, &mut again);
    draft.put("\n");
}

/// How often the exchange was handed on.
fn put_exchange<L: Link>(
    alloc: Global,
    draft: &mut Draft,
    link: &mut Relay<L>,
    authority: &str,
    request: &[u8],
    reply: &mut Vec<u8>,
) {
    let before = link.forwarded();
    draft.need(link.exchange(alloc, authority, request, reply));
    put_named(draft, " ", &link.forwarded().saturating_sub(before));
}

/// Whether both replies have the same bytes, and their first line.
fn put_alike(draft: &mut Draft, first: &[u8], again: &[u8]) {
    put_named(draft, " alike ", &(first == again));
    draft.put_all(&[" \"", first_line(first), "\"\n"]);
}

/// The requests in turn over a relay, which ends here.
fn put_in_turn<L: Link + Drop>(alloc: Global, draft: &mut Draft, made: Result<Relay<L>, Unmade>) {
    let mut link = match made {
        Ok(link) => link,
        Err(Unmade) => return draft.lose(),
    };
    let mut reply = Vec::new(alloc);
    draft.put("two entries:");
    for request in &IN_TURN {
        put_exchange(alloc, draft, &mut link, "lc.example", request, &mut reply);
    }
    draft.put("\n");
}
