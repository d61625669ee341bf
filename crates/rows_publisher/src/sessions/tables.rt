//! The cases: what comes on a connection, and in pieces of how many bytes.

/// What happens on a connection.
#[derive(Clone, Copy)]
pub(super) enum Step {
    /// These bytes come in one piece.
    Comes(&'static [u8]),
    /// These bytes come, so many in each piece.
    ComesBy(&'static [u8], usize),
    /// This many of the pending bytes are sent.
    Sends(usize),
    /// All pending bytes are sent.
    SendsAll,
}

/// The name of a connection, and what happens on it.
pub(super) type Case = (&'static str, &'static [Step]);

/// Two requests.
const TWO: &[u8] = b"GET / HTTP/1.1\r\nHost: x\r\n\r\nGET /stops HTTP/1.1\r\nHost: x\r\n\r\n";

/// One, and the front of another.
const ONE_AND_MORE: &[u8] = b"GET / HTTP/1.1\r\nHost: x\r\n\r\nGET /stops HT";

/// What is missing of that other one.
const REST: &[u8] = b"TP/1.1\r\nHost: x\r\n\r\n";

const PLAIN: &[u8] = b"GET / HTTP/1.1\r\nHost: x\r\n\r\n";

/// A request that closes, and one after it.
const CLOSING: &[u8] =
    b"GET / HTTP/1.1\r\nHost: x\r\nConnection: close\r\n\r\nGET /stops HTTP/1.1\r\nHost: x\r\n\r\n";

/// A request of HTTP/1.0, which closes, and one after it.
const OLD: &[u8] = b"GET / HTTP/1.0\r\n\r\nGET / HTTP/1.1\r\nHost: x\r\n\r\n";

/// A request, one without a Host, and one after it.
const HOSTLESS: &[u8] =
    b"GET / HTTP/1.1\r\nHost: x\r\n\r\nGET /stops HTTP/1.1\r\n\r\nGET / HTTP/1.1\r\nHost: x\r\n\r\n";

/// What can become no head.
const NO_HEAD: &[u8] = b"\0";

/// A body in another encoding.
const CHUNKED: &[u8] =
    b"POST /updates HTTP/1.1\r\nHost: x\r\nTransfer-Encoding: chunked\r\n\r\n0\r\n\r\n";

/// A POST of a message of 07:00:00 by which the trip T1 arrives at its second call 60 seconds late, which has 46 bytes.
const POSTED: &[u8] =
    b"POST /updates HTTP/1.1\r\nHost: x\r\nContent-Length: 46\r\n\r\n\x0a\x0d\x0a\x032.0\x10\x00\x18\xf0\xd0\xc7\xb1\x06\x12\x1d\x0a\x011\x1a\x18\x0a\x0e\x0a\x02T1\x1a\x0820240501\x12\x06\x08\x02\x12\x02\x08\x3c";

/// A request at the time gate.
const GATE: &[u8] = b"GET /connections HTTP/1.1\r\nHost: x\r\n\r\n";

/// Requests that leave the publisher as it is.
pub(super) static OF_REQUESTS: [Case; 11] = [
    ("two in one piece", &[Step::Comes(TWO)]),
    ("two in pieces of one byte", &[Step::ComesBy(TWO, 1)]),
    ("two in pieces of seven", &[Step::ComesBy(TWO, 7)]),
    (
        "a piece ends inside the second",
        &[Step::Comes(ONE_AND_MORE), Step::SendsAll, Step::Comes(REST)],
    ),
    ("no bytes", &[Step::Comes(b"")]),
    (
        "a few bytes are sent at a time",
        &[
            Step::Comes(PLAIN),
            Step::Sends(40),
            Step::Comes(PLAIN),
            Step::Sends(5),
            Step::SendsAll,
        ],
    ),
    ("one closes", &[Step::Comes(CLOSING), Step::Comes(PLAIN)]),
    ("HTTP/1.0 byte by byte", &[Step::ComesBy(OLD, 1)]),
    (
        "the second has no host",
        &[Step::ComesBy(HOSTLESS, 10), Step::Comes(PLAIN)],
    ),
    ("no head", &[Step::Comes(NO_HEAD)]),
    ("chunked", &[Step::Comes(CHUNKED)]),
];

/// Messages that are posted on one connection, and what is replied on the next ones.
pub(super) static OF_MESSAGES: [Case; 3] = [
    ("before a message", &[Step::Comes(GATE)]),
    (
        "a message in pieces of four",
        &[Step::ComesBy(POSTED, 4), Step::Comes(POSTED)],
    ),
    ("after a message", &[Step::ComesBy(GATE, 1)]),
];
