//! A server of Tiny: what it prints, and what it sends on each connection.
use crate::doors::{WHOLE, mem_door, sure_door};
use crate::running::{Fails, NONE, Stage, over_tiny, put_line, put_over, stage_of};
use lc_io::{MemDoor, SureDoor};
use lc_links::ClosedLink;
use rows_common::{Draft, Unmade};
use std::alloc::Global;

/// Arguments, and after them a line for each connection, as `doors` reads it. A blank line is between one case and the next. Each case is
/// run twice: the bytes of a connection come in one piece, and byte by byte.
const CASES: &str = "serve tiny 20240501 --port 8080 --connections 1
GET / HTTP/1.1|Host: x|

serve tiny 20240501 --port 8080 --connections 1

serve tiny 20240501 --port 8080 --connections 1 --accept-updates
POST /updates HTTP/1.1|Host: x|Content-Length: 46||d60.pb|POST /updates HTTP/1.1|Host: x|Content-Length: 46||d60.pb|POST /updates HTTP/1.1|Host: x|Content-Length: 40||cut.pb|POST /updates HTTP/1.1|Host: x||GET /updates HTTP/1.1|Host: x|

serve tiny 20240501 --port 8080 --connections 1
POST /updates HTTP/1.1|Host: x|Content-Length: 46||d60.pb|GET /updates HTTP/1.1|Host: x||GET /connections HTTP/1.1|Host: x|

serve tiny 20240501 --port 8080 --connections 2 --accept-updates
POST /updates HTTP/1.1|Host: x|Content-Length: 46||d60.pb
GET /connections HTTP/1.1|Host: x|

serve tiny 20240501 --accept-updates --port=8080 --connections=3
POST /updates HTTP/1.1|Host: x|Content-Length: 46||d60.pb
POST /updates HTTP/1.1|Host: x|Content-Length: 46||d60.pb
POST /updates HTTP/1.1|Host: x|Content-Length: 22||del.pb|HEAD /memento/connections?version=2024-05-01T07:00:00.000Z&departureTime=2024-05-01T09:30:00Z HTTP/1.1|Host: x|Connection: close||GET / HTTP/1.1|Host: x|

serve tiny 20240501 --port 80 --connections 1 --update d60.pb
GET /connections HTTP/1.1|Host: x|

serve tiny 20240501 --port 80 --connections 1 --update d60.pb --base-moment 2024-05-01T07:00:00Z --cuts whole
GET /connections?departureTime=2024-05-01T09:30:00Z HTTP/1.1|Host: x|

serve tiny 20240501 --port 8080 --connections 1 --update d60.pb --base http://lc.example/
GET /connections?departureTime=2024-05-01T08:00:00.000Z HTTP/1.1|Host: lc.example|Accept-Datetime: Wed, 01 May 2024 07:00:00 GMT||GET /connections?departureTime=2024-05-01T08:00:00.000Z HTTP/1.1|Host: lc.example|Accept-Datetime: Wed, 01 May 2024 06:59:59 GMT||GET /connections?departureTime=2024-05-01T08:00:00.000Z HTTP/1.1|Host: lc.example|Accept-Datetime: yesterday||POST /connections HTTP/1.1|Host: lc.example|Content-Length: 0|

serve tiny 20240501 --port 08080 --connections 2
GET /stops HTTP/1.1|Host: x||HEAD /memento/connections?version=1970-01-01T00:00:00Z&departureTime=2024-05-01T08:30:00Z HTTP/1.1|Host: x||GET /memento/connections?version=2024-05-01T07:00:00Z HTTP/1.1|Host: x||GET /memento/connections HTTP/1.1|Host: x|
GET /memento/connections?version=1970-01-01T00:00:00Z&departureTime=2024-05-01T08:30:00Z HTTP/1.1|Host: x|

serve tiny 20240501 --port 8080 --connections 4
GET / HTTP/1.1|Host: x|Connection: close||GET / HTTP/1.1|Host: x|
GET / HTTP/1.0||GET / HTTP/1.1|Host: x|
GET / HTTP/1.1|Host: x
-

serve tiny 20240501 --port 8080 --connections 4 --accept-updates
GET / HTTP/1.1||GET / HTTP/1.1|Host: x|
POST /updates HTTP/1.1|Host: x|Transfer-Encoding: chunked||GET / HTTP/1.1|Host: x|
POST /updates HTTP/1.1|Host: x|Content-Length: 16777217||GET / HTTP/1.1|Host: x|
GET /||GET / HTTP/1.1|Host: x|

serve tiny 20240501 --port 8080 --connections 3
GET / HTTP/1.1|Host: x|

serve tiny 20240501 --port 8080 --connections 1
GET / HTTP/1.1|Host: x|
GET / HTTP/1.1|Host: x|

serve none 20240501 --port 8080 --connections 1
GET / HTTP/1.1|Host: x|

serve tiny 20240501 --port 8080 --connections 1 --zone cet
GET / HTTP/1.1|Host: x|

serve tiny 20240501 --port 8080 --connections 1 --update none.pb
GET / HTTP/1.1|Host: x|

serve tiny 20240501 --port 8080 --connections 1 --update cut.pb
GET / HTTP/1.1|Host: x|

serve tiny 20240501 --connections 1
GET / HTTP/1.1|Host: x|";

const ONE: &str = "serve tiny 20240501 --port 8080 --connections 1\nGET / HTTP/1.1|Host: x|";

const TWO: &str =
    "serve tiny 20240501 --port 8080 --connections 2\nGET / HTTP/1.1|Host: x|\nGET / HTTP/1.1|Host: x|";

const POSTED: &str = "serve tiny 20240501 --port 8080 --connections 2 --accept-updates
POST /updates HTTP/1.1|Host: x|Content-Length: 46||d60.pb
GET /connections HTTP/1.1|Host: x|";

/// Cases, each under the number of the call of the door that fails. Calls are counted from 1, through `listen`, `next`, `read` and `write`.
static FAILURES: [(u64, &str); 8] = [
    (1, ONE),
    (2, ONE),
    (3, ONE),
    (4, ONE),
    (5, ONE),
    (3, TWO),
    (6, TWO),
    (4, POSTED),
];

/// Heads as long as one may be, and longer: what they are, their beginning, and a text that follows so many times.
static LONG: [(&str, &str, &str, usize); 5] = [
    (
        "16,383 bytes without an end",
        "GET / HTTP/1.1|Host: x|X: ",
        "a",
        16_353,
    ),
    (
        "16,384 bytes without an end",
        "GET / HTTP/1.1|Host: x|X: ",
        "a",
        16_354,
    ),
    ("100 fields", "GET / HTTP/1.1|Host: x|", "X: a|", 99),
    ("101 fields", "GET / HTTP/1.1|Host: x|", "X: a|", 100),
    ("101 requests", "", "GET / HTTP/1.1|Host: x||", 101),
];

pub fn put_servings(alloc: Global, draft: &mut Draft) {
    for case in CASES.split("\n\n") {
        put_case(alloc, draft, case);
    }
    for long in &LONG {
        put_long(alloc, draft, long);
    }
    for (call, case) in &FAILURES {
        put_failing_door(alloc, draft, *call, *case);
    }
    put_failing_sink(alloc, draft, 1);
    put_failing_sink(alloc, draft, 2);
}

/// The arguments of a case, and its connections.
fn parts_of(case: &str) -> (&str, &str) {
    case.split_once('\n').unwrap_or((case, ""))
}

/// Runs a case where the bytes of a connection come in one piece.
fn put_case(alloc: Global, draft: &mut Draft, case: &str) {
    put_line(draft, case);
    let mut whole = Draft::new(alloc);
    put_served(alloc, &mut whole, case, WHOLE, NONE);
    put_again(alloc, draft, case, &whole);
}

/// Runs it again where they come byte by byte.
fn put_again(alloc: Global, draft: &mut Draft, case: &str, whole: &Draft) {
    draft.also(whole);
    draft.put(whole.as_str());
    let mut cut = Draft::new(alloc);
    put_served(alloc, &mut cut, case, 1, NONE);
    put_same(draft, whole, &cut);
}

fn put_same(draft: &mut Draft, whole: &Draft, cut: &Draft) {
    draft.also(cut);
    draft.put("byte by byte the same: ");
    draft.put_shown(&(whole.as_bytes() == cut.as_bytes()));
    draft.put("\n\n");
}

fn put_long(alloc: Global, draft: &mut Draft, long: &(&str, &str, &str, usize)) {
    let (what, begin, piece, times) = *long;
    put_line(draft, what);
    let mut case = Draft::new(alloc);
    case.put("serve tiny 20240501 --port 8080 --connections 1\n");
    case.put(begin);
    case.put_times(piece, times);
    draft.also(&case);
    put_served(alloc, draft, case.as_str(), WHOLE, NONE);
    draft.put("\n");
}

/// Runs the case over a sink of which this write fails.
fn put_failing_sink(alloc: Global, draft: &mut Draft, write: u64) {
    draft.put("write ");
    draft.put_shown(&write);
    draft.put(" fails\n");
    put_line(draft, ONE);
    let fails = Fails {
        read: 0,
        exchange: 0,
        write,
    };
    put_served(alloc, draft, ONE, WHOLE, fails);
    draft.put("\n");
}

/// Runs the case over a door of which no call fails. The bytes of a connection come in pieces of so many.
fn put_served(alloc: Global, draft: &mut Draft, case: &str, by: usize, fails: Fails) {
    let (words, lines) = parts_of(case);
    match stage_of(alloc, &over_tiny(words, &[]), fails) {
        Ok(mut stage) => put_sure(alloc, draft, &mut stage, lines, by),
        Err(Unmade) => draft.lose(),
    }
}

fn put_sure(alloc: Global, draft: &mut Draft, stage: &mut Stage, lines: &str, by: usize) {
    match sure_door(alloc, lines, by) {
        Ok(mut door) => {
            let _ = put_over(alloc, draft, stage, &mut door, ClosedLink::new());
            put_sure_door(draft, &door);
        }
        Err(Unmade) => draft.lose(),
    }
}

/// Runs the case over a door of which this call fails.
fn put_failing_door(alloc: Global, draft: &mut Draft, call: u64, case: &str) {
    draft.put("call ");
    draft.put_shown(&call);
    draft.put(" fails\n");
    put_line(draft, case);
    let (words, lines) = parts_of(case);
    match stage_of(alloc, &over_tiny(words, &[]), NONE) {
        Ok(mut stage) => put_faulty(alloc, draft, &mut stage, lines, call),
        Err(Unmade) => draft.lose(),
    }
    draft.put("\n");
}

fn put_faulty(alloc: Global, draft: &mut Draft, stage: &mut Stage, lines: &str, call: u64) {
    match mem_door(alloc, lines, call) {
        Ok(mut door) => {
            let _ = put_over(alloc, draft, stage, &mut door, ClosedLink::new());
            put_mem_door(draft, &door);
        }
        Err(Unmade) => draft.lose(),
    }
}

/// The port where the door listens, and what was sent on each connection.
fn put_sure_door(draft: &mut Draft, door: &SureDoor) {
    put_port(draft, door.port());
    for before in 0..door.taken() {
        put_sent(draft, before, door.sent(before + 1));
    }
}

fn put_mem_door(draft: &mut Draft, door: &MemDoor) {
    put_port(draft, door.port());
    for before in 0..door.taken() {
        put_sent(draft, before, door.sent(before + 1));
    }
}

fn put_port(draft: &mut Draft, port: Option<u16>) {
    if let Some(port) = port {
        draft.put("the door listens at ");
        draft.put_shown(&port);
        draft.put("\n");
    }
}

/// The lines that were sent after so many connections. Many bytes are only counted.
fn put_sent(draft: &mut Draft, before: usize, sent: &[u8]) {
    draft.put("connection ");
    draft.put_shown(&before.saturating_add(1));
    draft.put(" is sent ");
    draft.put_shown(&sent.len());
    draft.put(" bytes\n");
    if sent.len() < 2_000 {
        put_lines(draft, sent);
    }
}

fn put_lines(draft: &mut Draft, sent: &[u8]) {
    for line in sent.split_inclusive(|byte| *byte == b'\n') {
        draft.put_escaped(line);
        draft.put("\n");
    }
}
