//! Realtime messages and scripts, and the file of a zone.

/// Realtime messages, worked out by hand (GTFS Realtime Reference; Protocol Buffers, Encoding), and a zone.
pub static MESSAGES: [(&str, &[u8]); 9] = [
    // 07:00: T1 arrives at B a minute late; by protoc.
    (
        "d60.pb",
        b"\x0a\x0d\x0a\x032.0\x10\x00\x18\xf0\xd0\xc7\xb1\x06\x12\x1d\x0a\x011\x1a\x18\x0a\x0e\x0a\x02T1\x1a\x0820240501\x12\x06\x08\x02\x12\x02\x08\x3c",
    ),
    // Its first 40 bytes, which end within the entity.
    (
        "cut.pb",
        b"\x0a\x0d\x0a\x032.0\x10\x00\x18\xf0\xd0\xc7\xb1\x06\x12\x1d\x0a\x011\x1a\x18\x0a\x0e\x0a\x02T1\x1a\x0820240501\x12\x06",
    ),
    // 07:10, differential: what the first message says is deleted.
    (
        "del.pb",
        b"\x0a\x0d\x0a\x032.0\x10\x01\x18\xc8\xd5\xc7\xb1\x06\x12\x05\x0a\x011\x10\x01",
    ),
    // 07:20, differential: T2 is cancelled.
    (
        "off.pb",
        b"\x0a\x0d\x0a\x032.0\x10\x01\x18\xa0\xda\xc7\xb1\x06\x12\x17\x0a\x012\x1a\x12\x0a\x10\x0a\x02T2\x1a\x0820240501\x20\x03",
    ),
    // T2 is cancelled, by a full message.
    (
        "full.pb",
        b"\x0a\x0d\x0a\x032.0\x10\x00\x18\xa0\xda\xc7\xb1\x06\x12\x17\x0a\x012\x1a\x12\x0a\x10\x0a\x02T2\x1a\x0820240501\x20\x03",
    ),
    // 07:30: the added trip X1, from A at 08:05 to D at 08:25.
    (
        "added.pb",
        b"\x0a\x0d\x0a\x032.0\x10\x00\x18\xf8\xde\xc7\xb1\x06\x12\x31\x0a\x013\x1a\x2c\x0a\x10\x0a\x02X1\x1a\x0820240501\x20\x01\x12\x0b\x1a\x06\x10\xac\xef\xc7\xb1\x06\x22\x01A\x12\x0b\x12\x06\x10\xdc\xf8\xc7\xb1\x06\x22\x01D",
    ),
    // X1 via Q at 08:15, which is no stop of the feed.
    (
        "via.pb",
        b"\x0a\x0d\x0a\x032.0\x10\x00\x18\xf8\xde\xc7\xb1\x06\x12\x3e\x0a\x013\x1a\x39\x0a\x10\x0a\x02X1\x1a\x0820240501\x20\x01\x12\x0b\x1a\x06\x10\xac\xef\xc7\xb1\x06\x22\x01A\x12\x0b\x12\x06\x10\x84\xf4\xc7\xb1\x06\x22\x01Q\x12\x0b\x12\x06\x10\xdc\xf8\xc7\xb1\x06\x22\x01D",
    ),
    // Via Q at 08:15, with T1, of which the feed has a run.
    (
        "known.pb",
        b"\x0a\x0d\x0a\x032.0\x10\x00\x18\xf8\xde\xc7\xb1\x06\x12\x31\x0a\x013\x1a\x2c\x0a\x10\x0a\x02T1\x1a\x0820240501\x20\x01\x12\x0b\x1a\x06\x10\xac\xef\xc7\xb1\x06\x22\x01A\x12\x0b\x12\x06\x10\xdc\xf8\xc7\xb1\x06\x22\x01D",
    ),
    // Asia/Kathmandu, as `zic` of the Debian package `tzdata` writes it.
    (
        "kathmandu",
        b"TZif2\x00\x00\x00\x00\x00\x00\x00\x00\x00\x00\x00\x00\x00\x00\x00\x00\x00\x00\x00\x00\x00\x00\x00\x00\x00\x00\x00\x00\x00\x00\x03\x00\x00\x00\x03\x00\x00\x00\x10\xa1\xf2}\x84\x1e\x180\xa8\x7f\xff\xff\xff\x01\x02\x02\x00\x00O\xfc\x00\x00\x00\x00MX\x00\x04\x00\x00P\xdc\x00\x0aLMT\x00+0530\x00+0545\x00TZif2\x00\x00\x00\x00\x00\x00\x00\x00\x00\x00\x00\x00\x00\x00\x00\x00\x00\x00\x00\x00\x00\x00\x00\x00\x00\x00\x00\x00\x00\x00\x03\x00\x00\x00\x03\x00\x00\x00\x10\xff\xff\xff\xff\xa1\xf2}\x84\x00\x00\x00\x00\x1e\x180\xa8\x00\x00\x00\x00\x7f\xff\xff\xff\x01\x02\x02\x00\x00O\xfc\x00\x00\x00\x00MX\x00\x04\x00\x00P\xdc\x00\x0aLMT\x00+0530\x00+0545\x00\x0a<+0545>-5:45\x0a",
    ),
];

/// Arguments, each with the rows of its script after them. A blank line is between one case and the next.
pub const CASES: &str =
    "ask tiny A D 2024-05-01T08:00:00Z --update d60.pb --known 2024-05-01T06:59:59Z

ask tiny A D 2024-05-01T08:00:00Z --update d60.pb --known 2024-05-01T07:00:00Z

ask tiny A D 2024-05-01T08:00:00Z --update d60.pb --base-moment 2024-05-01T07:00:00Z

ask tiny A D 2024-05-01T08:00:00Z --update d60.pb --base-moment 2024-05-01T07:00:00Z --horizon 0

ask tiny A D 2024-05-01T08:00:00Z --update cut.pb

ask tiny A D 2024-05-01T08:00:00Z --update added.pb

ask tiny A D 2024-05-01T08:00:00Z --update added.pb --known 2024-05-01T07:29:59Z

ask tiny A D 2024-05-01T08:00:00Z --update via.pb

ask tiny A D 2024-05-01T08:00:00Z --update known.pb

replay tiny 20240501 s.csv
ask,A,D,2024-05-01T08:00:00Z
turn,1
update,d60.pb
ask,A,D,2024-05-01T08:00:00Z

replay tiny 20240501 s.csv
update,d60.pb
update,del.pb
ask,A,D,2024-05-01T08:00:00Z
ask,A,D,2024-05-01T08:00:00Z,2024-05-01T07:09:59Z

replay tiny 20240501 s.csv
update,d60.pb
update,off.pb
ask,A,D,2024-05-01T08:00:00Z

replay tiny 20240501 s.csv
update,d60.pb
update,full.pb
ask,A,D,2024-05-01T08:00:00Z

replay tiny 20240501 s.csv
update,added.pb
ask,A,D,2024-05-01T08:00:00Z
ask,A,D,2024-05-01T08:00:00Z,2024-05-01T07:29:59Z

replay tiny 20240501 s.csv
update,via.pb
ask,A,D,2024-05-01T08:00:00Z

replay tiny 20240501 s.csv
update,known.pb
ask,A,D,2024-05-01T08:00:00Z

replay tiny 20240501 s.csv --cuts count:1 --cache 100
ask,A,D,2024-05-01T08:00:00Z
ask,A,D,2024-05-01T08:00:00Z
ask,A,D,2024-05-01T08:00:00Z

replay tiny 20240501 s.csv --cuts count:1 --cache 1
ask,A,D,2024-05-01T08:00:00Z
ask,A,D,2024-05-01T08:00:00Z
ask,A,D,2024-05-01T08:00:00Z

replay tiny 20240501 s.csv
update,d60.pb
update,d60.pb

replay tiny 20240501 s.csv
ask,A,A,2024-05-01T08:00:00Z
ask,X,D,2024-05-01T08:00:00Z

replay tiny 20240501 s.csv
turn,1

replay tiny 20240501 s.csv
ask,A,D,2024-05-01T08:00:00Z
turn,3

replay tiny 20240501 s.csv
update,d60.pb
update,none.pb

replay tiny 20240501 s.csv
update,cut.pb";
