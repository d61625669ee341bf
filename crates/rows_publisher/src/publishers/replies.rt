//! What publishers reply, each request after the others (RFC 9110; RFC 7089; Linked Connections 1.0).
use super::requests;
use super::requests::{ALL, Asked, message};
use crate::making::{ALONE, BY_HALF_HOURS, OF_NOTHING, ONE_BY_ONE, Plan, WHOLE, publisher};
use fragmenter::Cutting;
use http_text::{HeadRoom, Taken};
use lc_model::NoMemory;
use publisher::Publisher;
use rows_common::{Draft, Unmade};
use std::alloc::Global;
use version_store::Admitted;

/// What is said of a publisher after its replies.
#[derive(Clone, Copy)]
enum Then {
    Nothing,
    /// The connections of the trip T1 where it leaves out its second stop: one, named by the call that it departs from.
    Graph,
    /// What becomes of a message that is not sent over HTTP.
    Admitted,
}

/// The lines of the publishers.
pub(super) fn put_replies(alloc: Global, draft: &mut Draft, room: &mut HeadRoom) {
    put_over(
        alloc,
        draft,
        room,
        &BY_HALF_HOURS,
        &requests::BY_HALF_HOURS,
        Then::Nothing,
    );
    put_over(
        alloc,
        draft,
        room,
        &ONE_BY_ONE,
        &requests::ONE_BY_ONE,
        Then::Nothing,
    );
    put_over(alloc, draft, room, &WHOLE, &requests::WHOLE, Then::Nothing);
    put_over(alloc, draft, room, &ALONE, &[], Then::Graph);
    put_over(
        alloc,
        draft,
        room,
        &OF_NOTHING,
        &requests::OF_NOTHING,
        Then::Admitted,
    );
}

/// The replies of a publisher to these requests.
fn put_over(
    alloc: Global,
    draft: &mut Draft,
    room: &mut HeadRoom,
    plan: &Plan,
    table: &[Asked],
    then: Then,
) {
    match publisher(alloc, plan) {
        Ok(mut publisher) => put_both(alloc, draft, room, &mut publisher, table, then),
        Err(Unmade) => draft.lose(),
    }
}

fn put_both(
    alloc: Global,
    draft: &mut Draft,
    room: &mut HeadRoom,
    publisher: &mut Publisher<Cutting>,
    table: &[Asked],
    then: Then,
) {
    put_each(alloc, draft, room, publisher, table);
    match then {
        Then::Nothing => {}
        Then::Graph => put_graph_of(alloc, draft, room, publisher),
        Then::Admitted => put_late(alloc, draft, publisher),
    }
}

fn put_each(
    alloc: Global,
    draft: &mut Draft,
    room: &mut HeadRoom,
    publisher: &mut Publisher<Cutting>,
    table: &[Asked],
) {
    for asked in table {
        put_asked(alloc, draft, room, publisher, asked);
    }
}

/// A request with the word of its message, and so much of its reply.
fn put_asked(
    alloc: Global,
    draft: &mut Draft,
    room: &mut HeadRoom,
    publisher: &mut Publisher<Cutting>,
    &(head, word, most): &Asked,
) {
    draft.put_escaped(head.as_bytes());
    draft.put_all(&[word, " => "]);
    match request(alloc, head, message(word)) {
        Ok(request) => put_reply(alloc, draft, room, publisher, request.as_slice(), most),
        Err(Unmade) => draft.lose(),
    }
    draft.put("\n");
}

/// A request of this head and this body.
fn request(alloc: Global, head: &str, body: &[u8]) -> Result<Vec<u8>, Unmade> {
    let mut request = Vec::from_slice(alloc, head.as_bytes())?;
    request.extend_from_slice(body)?;
    Ok(request)
}

/// The reply to a whole request up to some length, with the ends of its lines written out.
pub(super) fn put_reply(
    alloc: Global,
    draft: &mut Draft,
    room: &mut HeadRoom,
    publisher: &mut Publisher<Cutting>,
    request: &[u8],
    most: usize,
) {
    match room.take_request(request) {
        Taken::Whole { length } => {
            put_answer(draft, publisher.answer(alloc, &request[..length]), most);
        }
        Taken::NotYet | Taken::Refused { .. } => draft.lose(),
    }
}

fn put_answer(draft: &mut Draft, answer: Result<Vec<u8>, NoMemory>, most: usize) {
    match answer {
        Ok(reply) => put_front(draft, reply.as_slice(), most),
        Err(NoMemory) => draft.lose(),
    }
}

/// This many of the bytes, or all of them.
fn put_front(draft: &mut Draft, bytes: &[u8], most: usize) {
    draft.put_escaped(bytes.get(..most).unwrap_or(bytes));
}

fn put_graph_of(
    alloc: Global,
    draft: &mut Draft,
    room: &mut HeadRoom,
    publisher: &mut Publisher<Cutting>,
) {
    let mut page = Draft::new(alloc);
    page.need(publisher.admit(alloc, message("skipped")));
    put_reply(
        alloc,
        &mut page,
        room,
        publisher,
        b"GET /memento/connections?version=2024-05-01T07:00:00Z HTTP/1.1\r\nHost: x\r\n\r\n",
        ALL,
    );
    draft.also(&page);
    put_graph(draft, page.as_str());
}

/// The connections of a page.
fn put_graph(draft: &mut Draft, page: &str) {
    let Some((_, rest)) = page.split_once(",\"@graph\":") else {
        return draft.lose();
    };
    let Some((graph, _)) = rest.split_once(",\"@id\":") else {
        return draft.lose();
    };
    draft.put_all(&["graph over a stop: ", graph, "\n"]);
}

fn put_late(alloc: Global, draft: &mut Draft, publisher: &mut Publisher<Cutting>) {
    publisher.side_is_valid();
    match publisher.admit(alloc, message("late")) {
        Ok(admitted) => put_admitted(draft, admitted, publisher),
        Err(_) => draft.lose(),
    }
}

fn put_admitted(draft: &mut Draft, admitted: Admitted, publisher: &Publisher<Cutting>) {
    draft.put("admitted: newest ");
    draft.put_shown(&(admitted.moment == publisher.newest()));
    draft.put(" passed ");
    draft.put_shown(&admitted.passed);
    draft.put("\n");
}
