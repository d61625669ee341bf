//! The replies of a link, which were worked out by hand (Linked Connections 1.0; RFC 7089).
use crate::making::MEMENTO;
use lc_model::{Bytes, NoMemory};
use lc_world::ListLink;
use rows_common::Draft;
use std::alloc::Global;

const GATE: &str =
    "HTTP/1.1 302 Found\r\nContent-Length: 0\r\nLocation: /memento/connections?version=1970-01-01T00:00:00.000Z&departureTime=1970-01-11T00:00:00.000Z\r\n\r\n";

const STOPS: &str =
    "HTTP/1.1 200 OK\r\n\r\n{\"changes\":[],\"stops\":[{\"id\":\"E\"},{\"id\":\"F\"}]}";

/// A link that gives the replies of these words, and fails then.
pub(super) fn link_of(alloc: Global, draft: &mut Draft, words: &str) -> Result<ListLink, NoMemory> {
    let mut replies = Vec::new(alloc);
    for word in words.split_whitespace() {
        push(alloc, draft, &mut replies, word);
    }
    ListLink::new(replies)
}

fn push(alloc: Global, draft: &mut Draft, replies: &mut Vec<Bytes>, word: &str) {
    let mut reply = Draft::new(alloc);
    put_reply(&mut reply, word);
    draft.also(&reply);
    draft.need(replies.push(Bytes::from_list(reply.into_bytes())));
}

/// Adds a reply: of the time gate, of the stops document, or of a page by its second and that of the next page.
fn put_reply(reply: &mut Draft, word: &str) {
    match word.split_once('/') {
        Some((second, next)) => put_linked(reply, second, next),
        None if word == "gate" => reply.put(GATE),
        None => reply.put(STOPS),
    }
}

/// A page from this second on, which is linked to a page from that one on. Its one connection departs then and takes ten minutes.
fn put_linked(reply: &mut Draft, second: &str, next: &str) {
    reply.put(MEMENTO);
    put_page(reply, "@id", second);
    put_page(reply, "hydra:next", next);
    reply.put_all(&[
        "\"@graph\":[{\"@id\":\"http://a/connections/X/19700111/-/1",
        second,
        "\",\"departureStop\":\"http://a/stops/E\",\"departureTime\":\"1970-01-11T00:00:0",
        second,
        ".000Z\",\"arrivalStop\":\"http://a/stops/F\",\"arrivalTime\":\"1970-01-11T00:10:0",
        second,
        ".000Z\"}]}",
    ]);
}

/// The name of a page, if there is a second.
fn put_page<'x>(reply: &mut Draft, member: &'x str, second: &'x str) {
    if !second.is_empty() {
        reply.put_all(&[
            "\"",
            member,
            "\":\"http://a/memento/connections?version=1970-01-01T00:00:00.000Z&departureTime=1970-01-11T00:00:0",
            second,
            ".000Z\",",
        ]);
    }
}
