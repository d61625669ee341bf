//! Replies of the time gate, of the stops document and of pages, worked out by hand (Linked Connections 1.0; RFC 7089).
use crate::making::MEMENTO;
use rows_common::Draft;

/// A connection: its letter, its run and sequence, the stop and the time of its departure, and those of its arrival.
type Row = (
    u8,
    &'static str,
    &'static str,
    &'static str,
    &'static str,
    &'static str,
);

/// The connections of the small feed, and of a feed with one each second.
static ROWS: [Row; 10] = [
    (b'a', "T1/20240501/-/1", "A", "08:00:00", "B", "08:10:00"),
    (b'b', "T1/20240501/-/2", "B", "08:11:00", "C", "08:30:00"),
    (b'c', "T3/20240501/-/1", "B", "08:12:00", "D", "08:31:00"),
    (b'd', "T2/20240501/-/1", "B", "08:20:00", "D", "08:40:00"),
    (b'e', "T4/20240501/-/1", "E", "09:00:00", "F", "09:10:00"),
    (b'f', "T5/20240501/-/1", "E", "10:00:00", "F", "10:10:00"),
    (b'0', "X/20240501/-/1", "E", "08:00:00", "F", "08:10:00"),
    (b'1', "X/20240501/-/2", "E", "08:00:01", "F", "08:10:01"),
    (b'2', "X/20240501/-/3", "E", "08:00:02", "F", "08:10:02"),
    (b'3', "X/20240501/-/4", "E", "08:00:03", "F", "08:10:03"),
];

/// Six stops, and a change of 120 seconds at each of them.
const STOPS: &str = "HTTP/1.1 200 OK\r\n\r\n{\"stops\":[\
    {\"id\":\"A\"},{\"id\":\"B\"},{\"id\":\"C\"},{\"id\":\"D\"},{\"id\":\"E\"},{\"id\":\"F\"}],\
    \"changes\":[\
    {\"from\":\"A\",\"seconds\":120,\"to\":\"A\"},\
    {\"from\":\"B\",\"seconds\":120,\"to\":\"B\"},\
    {\"from\":\"C\",\"seconds\":120,\"to\":\"C\"},\
    {\"from\":\"D\",\"seconds\":120,\"to\":\"D\"},\
    {\"from\":\"E\",\"seconds\":120,\"to\":\"E\"},\
    {\"from\":\"F\",\"seconds\":120,\"to\":\"F\"}]}";

/// What comes after the front of a reply.
#[derive(Clone, Copy)]
enum Rest {
    Nothing,
    /// The end of the place of a page, by its time, and of the head.
    Place,
    /// The members of a page, by its parts.
    Page,
    /// 16,350 digits, and the parts.
    Digits,
}

/// The kinds of replies with their fronts: of the time gate, of the stops document, of pages as mementos and as none, and wrong ones.
static KINDS: [(&str, &str, Rest); 13] = [
    (
        "gate",
        "HTTP/1.1 302 Found\r\nLocation: http://lc.example/",
        Rest::Place,
    ),
    ("path", "HTTP/1.1 302 Found\r\nLocation: /", Rest::Place),
    (
        "other",
        "HTTP/1.1 302 Found\r\nLocation: http://other.example/",
        Rest::Place,
    ),
    (
        "fine",
        "HTTP/1.1 200 OK\r\nLocation: http://lc.example/",
        Rest::Place,
    ),
    ("found", "HTTP/1.1 302 Found\r\n\r\n", Rest::Nothing),
    (
        "ok",
        "HTTP/1.1 200 OK\r\nContent-Length: 0\r\n\r\n",
        Rest::Nothing,
    ),
    ("none", "HTTP/1.1 404 Not Found\r\n\r\n", Rest::Nothing),
    (
        "gone",
        "HTTP/1.1 404 Not Found\r\nContent-Length: 10\r\n\r\n{",
        Rest::Nothing,
    ),
    (
        "cut",
        "HTTP/1.1 200 OK\r\nContent-Length: 10\r\n\r\n{\"stops\":",
        Rest::Nothing,
    ),
    ("stops", STOPS, Rest::Nothing),
    ("page", MEMENTO, Rest::Page),
    ("plain", "HTTP/1.1 200 OK\r\n\r\n{", Rest::Page),
    ("long", "HTTP/1.1 302 Found\r\nVia: ", Rest::Digits),
];

/// Adds the reply of a word: its kind and its parts. A page is named by a time of 2024-05-01, or by none, which is the first moment.
pub(super) fn put_reply(reply: &mut Draft, word: &str) {
    let (kind, parts) = cut(word);
    for row in &KINDS {
        if row.0 == kind {
            reply.put(row.1);
            put_rest(reply, row.2, parts);
        }
    }
}

fn put_rest(reply: &mut Draft, rest: Rest, parts: &str) {
    match rest {
        Rest::Nothing => {}
        Rest::Place => {
            put_name(reply, parts);
            reply.put(".000Z\r\nContent-Length: 0\r\n\r\n");
        }
        Rest::Page => put_parts(reply, parts),
        // A head of the time gate that does not end has 16,375 bytes and those of the parts.
        Rest::Digits => {
            reply.put_times("0123456789", 1_635);
            reply.put(parts);
        }
    }
}

/// The name of a page under the base, up to the seconds of its time of 2024-05-01. No time is the first moment.
fn put_name(reply: &mut Draft, time: &str) {
    reply.put("memento/connections?version=1970-01-01T00:00:00.000Z&departureTime=");
    reply.put(if time.is_empty() {
        "1970-01-01T00:00:00"
    } else {
        "2024-05-01T"
    });
    reply.put(time);
}

/// A page of these parts: its name, its next page, its previous page, and its connections.
fn put_parts(reply: &mut Draft, parts: &str) {
    let (name, rest) = cut(parts);
    let (next, rest) = cut(rest);
    let (previous, letters) = cut(rest);
    put_page(reply, "\"@id", name);
    put_link(reply, "\"hydra:next", next);
    put_link(reply, "\"hydra:previous", previous);
    put_rows(reply, letters);
}

/// The text before the first slash, and the text after it.
fn cut(text: &str) -> (&str, &str) {
    text.split_once('/').unwrap_or((text, ""))
}

fn put_page(reply: &mut Draft, member: &str, time: &str) {
    reply.put(member);
    reply.put("\":\"http://lc.example/");
    put_name(reply, time);
    reply.put(".000Z\",");
}

fn put_link(reply: &mut Draft, member: &str, time: &str) {
    if !time.is_empty() {
        put_page(reply, member, time);
    }
}

fn put_rows(reply: &mut Draft, letters: &str) {
    reply.put("\"@graph\":[");
    let mut between = "";
    for letter in letters.as_bytes() {
        reply.put(between);
        put_letter(reply, *letter);
        between = ",";
    }
    reply.put("]}");
}

/// The connection of this letter, which has one.
fn put_letter(reply: &mut Draft, letter: u8) {
    for row in &ROWS {
        if row.0 == letter {
            put_row(reply, row);
        }
    }
}

fn put_row(reply: &mut Draft, row: &Row) {
    let &(_, id, from, dep, to, arr) = row;
    reply.put_all(&[
        "{\"@id\":\"http://lc.example/connections/",
        id,
        "\",\"departureStop\":\"http://lc.example/stops/",
        from,
        "\",\"departureTime\":\"2024-05-01T",
        dep,
        ".000Z\",\"arrivalStop\":\"http://lc.example/stops/",
        to,
        "\",\"arrivalTime\":\"2024-05-01T",
        arr,
        ".000Z\"}",
    ]);
}
