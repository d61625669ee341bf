//! What a publisher replies where more versions are asked for than it caches the cuts of.
use super::replies::put_reply;
use super::requests::ALL;
use crate::making::{BY_HALF_HOURS, publisher};
use fragmenter::Cutting;
use http_text::HeadRoom;
use publisher::Publisher;
use rows_common::{Draft, Unmade};
use std::alloc::Global;

/// The versions: the base of 06:00, and one of each minute after it.
const VERSIONS: u8 = 20;

/// 2024-05-01T06:00:00Z.
const AT_SIX: u32 = 1_714_543_200;

/// This many characters of a time gate's reply end with the name of the page.
const PLACE: usize = 158;

/// The versions are asked in turn twice. By the message of each, T1 departs from its second stop another minute later, where a page begins.
pub(super) fn put_versions(alloc: Global, draft: &mut Draft, room: &mut HeadRoom) {
    match publisher(alloc, &BY_HALF_HOURS) {
        Ok(mut publisher) => put_rounds(alloc, draft, room, &mut publisher),
        Err(Unmade) => draft.lose(),
    }
}

fn put_rounds(
    alloc: Global,
    draft: &mut Draft,
    room: &mut HeadRoom,
    publisher: &mut Publisher<Cutting>,
) {
    for minute in 1..VERSIONS {
        draft.need(publisher.admit(alloc, &message(minute)));
    }
    let mut firsts = Draft::new(alloc);
    put_round(alloc, &mut firsts, room, publisher);
    let mut seconds = Draft::new(alloc);
    put_round(alloc, &mut seconds, room, publisher);
    put_alike(draft, &firsts, &seconds);
    for minute in [0, 1, 3, 19] {
        put_place(alloc, draft, room, publisher, minute);
    }
}

/// The page of each version for 08:59.
fn put_round(
    alloc: Global,
    draft: &mut Draft,
    room: &mut HeadRoom,
    publisher: &mut Publisher<Cutting>,
) {
    for minute in 0..VERSIONS {
        put_page(alloc, draft, room, publisher, minute);
    }
}

fn put_page(
    alloc: Global,
    draft: &mut Draft,
    room: &mut HeadRoom,
    publisher: &mut Publisher<Cutting>,
    minute: u8,
) {
    let mut request = Draft::new(alloc);
    request.put("GET /memento/connections?version=2024-05-01T06:");
    put_minute(&mut request, minute);
    request.put(":00Z&departureTime=2024-05-01T08:59:00Z HTTP/1.1\r\nHost: x\r\n\r\n");
    draft.also(&request);
    put_reply(alloc, draft, room, publisher, request.as_bytes(), ALL);
    draft.put("\n");
}

/// Where the page of a version for 08:59 begins.
fn put_place(
    alloc: Global,
    draft: &mut Draft,
    room: &mut HeadRoom,
    publisher: &mut Publisher<Cutting>,
    minute: u8,
) {
    let mut request = Draft::new(alloc);
    request.put(
        "HEAD /connections?departureTime=2024-05-01T08:59:00Z HTTP/1.1\r\nHost: x\r\nAccept-Datetime: Wed, 01 May 2024 06:",
    );
    put_minute(&mut request, minute);
    request.put(":00 GMT\r\n\r\n");
    draft.also(&request);
    put_reply(alloc, draft, room, publisher, request.as_bytes(), PLACE);
    draft.put("\n");
}

fn put_alike(draft: &mut Draft, firsts: &Draft, seconds: &Draft) {
    draft.also(firsts);
    draft.also(seconds);
    draft.put("20 versions asked in turn twice: pages ");
    draft.put_shown(&firsts.as_str().matches("200 OK").count());
    draft.put(" alike ");
    draft.put_shown(&(firsts.as_str() == seconds.as_str()));
    draft.put("\n");
}

fn put_minute(draft: &mut Draft, minute: u8) {
    draft.put_shown(&(minute / 10));
    draft.put_shown(&(minute % 10));
}

/// A message of so many minutes after 06:00, by which T1 arrives at its second call 20 and so many minutes late.
fn message(minute: u8) -> [u8; 47] {
    let sent = AT_SIX + 60 * u32::from(minute);
    let late = 1_200 + 60 * u32::from(minute);
    [
        0x0a,
        13,
        // The header: version 2.0, a whole message, and when it was sent.
        0x0a,
        3,
        b'2',
        b'.',
        b'0',
        0x10,
        0,
        0x18,
        more_bits(sent),
        more_bits(sent >> 7),
        more_bits(sent >> 14),
        more_bits(sent >> 21),
        last_bits(sent >> 28),
        // One entity with the news of a trip.
        0x12,
        30,
        0x0a,
        1,
        b'1',
        0x1a,
        25,
        // The trip and its date.
        0x0a,
        14,
        0x0a,
        2,
        b'T',
        b'1',
        0x1a,
        8,
        b'2',
        b'0',
        b'2',
        b'4',
        b'0',
        b'5',
        b'0',
        b'1',
        // The second call, and its delay on arrival.
        0x12,
        7,
        0x08,
        2,
        0x12,
        3,
        0x08,
        more_bits(late),
        last_bits(late >> 7),
    ]
}

/// The lowest seven bits of a number of which more follow (Protocol Buffers, varints).
fn more_bits(number: u32) -> u8 {
    last_bits(number) | 0x80
}

/// The lowest seven bits of a number.
fn last_bits(number: u32) -> u8 {
    (number & 0x7f) as u8
}
