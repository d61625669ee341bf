//! The replies of a link: those of a publisher of six stops and six connections, which were worked out by hand (Linked Connections 1.0;
//! RFC 7089). Pages begin at 08:00, 09:00 and 10:00.
use crate::making::NOT_FOUND;
use lc_model::{Bytes, NoMemory};
use lc_world::ListLink;
use rows_common::Draft;
use std::alloc::Global;

const MOVED: &str =
    "HTTP/1.1 302 Found\r\nContent-Length: 0\r\nLocation: /memento/connections?version=2024-05-01T07:00:00.000Z&departureTime=2024-05-01T";

const STOPS: &str =
    "HTTP/1.1 200 OK\r\n\r\n{\"stops\":[{\"id\":\"A\"},{\"id\":\"B\"},{\"id\":\"C\"},{\"id\":\"D\"},{\"id\":\"E\"},{\"id\":\"F\"}],\"changes\":[\
    {\"from\":\"A\",\"seconds\":120,\"to\":\"A\"},\
    {\"from\":\"B\",\"seconds\":120,\"to\":\"B\"},";

const FROM_B_TO_E: &str = "{\"from\":\"B\",\"seconds\":300,\"to\":\"E\"},";

const OTHER_CHANGES: &str = "{\"from\":\"C\",\"seconds\":120,\"to\":\"C\"},\
    {\"from\":\"D\",\"seconds\":120,\"to\":\"D\"},\
    {\"from\":\"E\",\"seconds\":120,\"to\":\"E\"},\
    {\"from\":\"F\",\"seconds\":120,\"to\":\"F\"}]}";

const MEMENTO: &str = "HTTP/1.1 200 OK\r\nMemento-Datetime: Wed, 01 May 2024 07:00:00 GMT\r\n\r\n{";

/// A connection: when its page begins, and what is between it and the one before it. Then its trip and sequence, stop and time of
/// departure, stop and time of arrival.
type Row = (
    &'static str,
    &'static str,
    &'static str,
    &'static str,
    &'static str,
    &'static str,
    &'static str,
    &'static str,
);

static ROWS: [Row; 8] = [
    ("08:00", "", "T1", "1", "A", "08:00", "B", "08:10"),
    ("08:00", ",", "T1", "2", "B", "08:11", "C", "08:30"),
    ("08:00", ",", "T3", "1", "B", "08:12", "D", "08:31"),
    ("08:00", ",", "T2", "1", "B", "08:20", "D", "08:40"),
    ("08:30", "", "T6", "1", "A", "08:30", "B", "08:40"),
    ("08:30", ",", "T4", "1", "E", "09:00", "F", "09:10"),
    ("09:00", "", "T4", "1", "E", "09:00", "F", "09:10"),
    ("10:00", "", "T5", "1", "E", "10:00", "F", "10:10"),
];

/// A link that gives the replies of these words, and fails then.
pub(super) fn link_of(alloc: Global, draft: &mut Draft, words: &str) -> Result<ListLink, NoMemory> {
    let mut replies = Vec::new(alloc);
    for word in words.split_whitespace() {
        push(alloc, draft, &mut replies, word);
    }
    ListLink::new(replies)
}

fn push(alloc: Global, draft: &mut Draft, replies: &mut Vec<Bytes>, word: &str) {
    let mut reply = Draft::new(alloc);
    put_reply(&mut reply, word);
    draft.also(&reply);
    draft.need(replies.push(Bytes::from_list(reply.into_bytes())));
}

/// Adds a reply: of the time gate, which sends to a page, of the stops document, of a page, or that there is nothing.
fn put_reply(reply: &mut Draft, word: &str) {
    match word.split_once('=') {
        Some(("gate", time)) => reply.put_all(&[MOVED, time, ":00.000Z\r\n\r\n"]),
        Some((time, links)) => put_linked(reply, time, links),
        None if word == "stops" => reply.put_all(&[STOPS, OTHER_CHANGES]),
        None if word == "walks" => reply.put_all(&[STOPS, FROM_B_TO_E, OTHER_CHANGES]),
        None => reply.put(NOT_FOUND),
    }
}

/// A page that begins at this time, with the times of its previous page and of its next one, if it has them, on both sides of a comma.
fn put_linked(reply: &mut Draft, time: &str, links: &str) {
    reply.put(MEMENTO);
    put_page(reply, "@id", time);
    if let Some((previous, next)) = links.split_once(',') {
        put_page(reply, "hydra:previous", previous);
        put_page(reply, "hydra:next", next);
    }
    reply.put("\"@graph\":[");
    put_connections(reply, time);
    reply.put("]}");
}

/// The name of a page, if there is a time.
fn put_page<'x>(reply: &mut Draft, member: &'x str, time: &'x str) {
    if !time.is_empty() {
        reply.put_all(&[
            "\"",
            member,
            "\":\"http://lc.example/memento/connections?version=2024-05-01T07:00:00.000Z&departureTime=2024-05-01T",
            time,
            ":00.000Z\",",
        ]);
    }
}

/// The connections of the page that begins at this time.
fn put_connections(reply: &mut Draft, time: &str) {
    for row in &ROWS {
        if row.0 == time {
            put_connection(reply, row);
        }
    }
}

fn put_connection(reply: &mut Draft, row: &Row) {
    let &(_, between, trip, sequence, from, departs, to, arrives) = row;
    reply.put_all(&[
        between,
        "{\"@id\":\"http://lc.example/connections/",
        trip,
        "/20240501/-/",
        sequence,
        "\",\"departureStop\":\"http://lc.example/stops/",
        from,
        "\",\"departureTime\":\"2024-05-01T",
        departs,
        ":00.000Z\",\"arrivalStop\":\"http://lc.example/stops/",
        to,
        "\",\"arrivalTime\":\"2024-05-01T",
        arrives,
        ":00.000Z\"}",
    ]);
}
