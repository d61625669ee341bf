//! Requests.

/// The message `d60.pb`: T1 arrives at B a minute late. It is of 2024-05-01T07:00:00Z.
pub(super) const POST_D60: &[u8] =
    b"POST /updates HTTP/1.1\r\nHost: lc.example\r\nContent-Length: 46\r\n\r\n\x0a\x0d\x0a\x03\x32\x2e\x30\x10\x00\x18\xf0\xd0\xc7\xb1\x06\x12\x1d\x0a\x01\x31\x1a\x18\x0a\x0e\x0a\x02\x54\x31\x1a\x08\x32\x30\x32\x34\x30\x35\x30\x31\x12\x06\x08\x02\x12\x02\x08\x3c";

pub(super) const STOPS: &[u8] = b"GET /stops HTTP/1.1\r\nHost: lc.example\r\n\r\n";

pub(super) const GATE: &[u8] =
    b"GET /connections?departureTime=2024-05-01T08:00:00.000Z HTTP/1.1\r\nHost: lc.example\r\n\r\n";

pub(super) const EIGHT: &[u8] =
    b"GET /memento/connections?version=1970-01-01T00:00:00.000Z&departureTime=2024-05-01T08:00:00.000Z HTTP/1.1\r\nHost: lc.example\r\n\r\n";

pub(super) const NINE: &[u8] =
    b"GET /memento/connections?version=1970-01-01T00:00:00.000Z&departureTime=2024-05-01T09:00:00.000Z HTTP/1.1\r\nHost: lc.example\r\n\r\n";
