//! The requests of the publishers' cases.

/// The head of a request with its empty line, the word of its message, and so many characters of its reply that are shown.
pub(super) type Asked = (&'static str, &'static str, usize);

/// More than a reply has characters.
pub(super) const ALL: usize = 1_000_000;

/// A message of 07:00:00 by which T1 arrives at its second call 60 seconds late.
const LATE: &[u8] =
    b"\x0a\x0d\x0a\x032.0\x10\x00\x18\xf0\xd0\xc7\xb1\x06\x12\x1d\x0a\x011\x1a\x18\x0a\x0e\x0a\x02T1\x1a\x0820240501\x12\x06\x08\x02\x12\x02\x08\x3c";

/// Its first 40 bytes.
const CUT: &[u8] =
    b"\x0a\x0d\x0a\x032.0\x10\x00\x18\xf0\xd0\xc7\xb1\x06\x12\x1d\x0a\x011\x1a\x18\x0a\x0e\x0a\x02T1\x1a\x0820240501\x12\x06";

/// A message of 07:00:00 by which T1 leaves out its second call.
const SKIPPED: &[u8] =
    b"\x0a\x0d\x0a\x032.0\x10\x00\x18\xf0\xd0\xc7\xb1\x06\x12\x1b\x0a\x011\x1a\x16\x0a\x0e\x0a\x02T1\x1a\x0820240501\x12\x04\x08\x02\x28\x01";

/// The message of a word, or no bytes.
pub(super) fn message(word: &str) -> &'static [u8] {
    match word {
        "late" => LATE,
        "cut" => CUT,
        "skipped" => SKIPPED,
        _ => b"",
    }
}

/// Messages; the time gate, of pages by half hours; and those pages, and other documents.
pub(super) static BY_HALF_HOURS: [Asked; 17] = [
    ("POST /updates HTTP/1.1\r\nHost: x\r\n\r\n", "", ALL),
    (
        "POST /updates HTTP/1.1\r\nHost: x\r\nContent-Length: 40\r\n\r\n",
        "cut",
        ALL,
    ),
    (
        "POST /updates HTTP/1.1\r\nHost: x\r\nContent-Length: 46\r\n\r\n",
        "late",
        ALL,
    ),
    (
        "POST /updates HTTP/1.1\r\nHost: x\r\nContent-Length: 46\r\n\r\n",
        "late",
        ALL,
    ),
    ("GET /updates HTTP/1.1\r\nHost: x\r\n\r\n", "", ALL),
    (
        "GET /connections?departureTime=2024-05-01T08:00:00.000Z HTTP/1.1\r\nHost: lc.example\r\nAccept-Datetime: Wed, 01 May 2024 07:00:00 GMT\r\n\r\n",
        "",
        ALL,
    ),
    (
        "HEAD /connections?departureTime=2024-05-01T09:30:00Z HTTP/1.1\r\nHost: x\r\nConnection: close\r\n\r\n",
        "",
        ALL,
    ),
    (
        "GET /connections HTTP/1.1\r\nHost: x\r\naccept-datetime: Wed, 01 May 2024 05:00:00 GMT\r\n\r\n",
        "",
        ALL,
    ),
    (
        "GET /connections HTTP/1.1\r\nHost: x\r\nAccept-Datetime: yesterday\r\n\r\n",
        "",
        ALL,
    ),
    (
        "GET /connections?departureTime=8 HTTP/1.1\r\nHost: x\r\n\r\n",
        "",
        ALL,
    ),
    (
        "POST /connections HTTP/1.1\r\nHost: x\r\nContent-Length: 0\r\n\r\n",
        "",
        ALL,
    ),
    (
        "GET /memento/connections HTTP/1.1\r\nHost: x\r\n\r\n",
        "",
        ALL,
    ),
    (
        "GET /memento/connections?version=2024-05-01T06:30:00Z HTTP/1.1\r\nHost: x\r\n\r\n",
        "",
        ALL,
    ),
    (
        "HEAD /memento/connections?version=2024-05-01T06:00:00Z&departureTime=2024-05-01T08:30:00Z HTTP/1.1\r\nHost: x\r\n\r\n",
        "",
        ALL,
    ),
    (
        "GET /memento/connections?version=2024-05-01T07:00:00Z&departureTime=2024-05-01T08:30:00Z HTTP/1.1\r\nHost: x\r\n\r\n",
        "",
        240,
    ),
    ("HEAD /stops HTTP/1.0\r\n\r\n", "", ALL),
    ("GET / HTTP/1.1\r\nHost: x\r\n\r\n", "", ALL),
];

/// A page for each connection: those of the base.
pub(super) static ONE_BY_ONE: [Asked; 3] = [
    (
        "GET /connections?departureTime=2024-05-01T08:30:00Z HTTP/1.1\r\nHost: x\r\n\r\n",
        "",
        ALL,
    ),
    (
        "HEAD /memento/connections?version=2024-05-01T06:00:00Z&departureTime=2024-05-01T08:20:00Z HTTP/1.1\r\nHost: x\r\n\r\n",
        "",
        ALL,
    ),
    (
        "HEAD /memento/connections?version=2024-05-01T06:00:00Z&departureTime=2024-05-02T08:20:00Z HTTP/1.1\r\nHost: x\r\n\r\n",
        "",
        ALL,
    ),
];

/// One page for all connections.
pub(super) static WHOLE: [Asked; 1] = [(
    "HEAD /memento/connections?version=2024-05-01T06:00:00Z&departureTime=2024-05-01T08:30:00Z HTTP/1.1\r\nHost: x\r\n\r\n",
    "",
    ALL,
)];

/// Without trips and stops, and with no messages taken.
pub(super) static OF_NOTHING: [Asked; 4] = [
    ("GET /stops HTTP/1.1\r\nHost: x\r\n\r\n", "", ALL),
    (
        "HEAD /connections?departureTime=2024-05-01T08:00:00Z HTTP/1.1\r\nHost: x\r\n\r\n",
        "",
        ALL,
    ),
    (
        "HEAD /memento/connections?version=2024-05-01T06:00:00Z HTTP/1.1\r\nHost: x\r\n\r\n",
        "",
        ALL,
    ),
    (
        "POST /updates HTTP/1.1\r\nHost: x\r\nContent-Length: 46\r\n\r\n",
        "late",
        ALL,
    ),
];
