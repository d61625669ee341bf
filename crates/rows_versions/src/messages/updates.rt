//! What trip updates say (GTFS Realtime Reference). The bytes were written by protoc 3.21 from a schema of the fields that are
//! read, with `protoc --encode=FeedMessage`, from the text above each.
use super::putting::{put_counts, put_each};
use crate::late::{DELETED, LATE, LONGER};
use rows_common::Unmade;
use std::alloc::Global;
use trip_updates::{one_meaning, read_message};

// LATE with a field of each wire type that no reader knows in every message, of the numbers 1001 to 1004:
// odd_varint: 300 odd_eight: 5 odd_text: "abc" odd_four: 7.
const UNKNOWN: &[u8] =
    b"\x0a\x27\x0a\x032.0\x10\x00\x18\xf0\xd0\xc7\xb1\x06\xc8\x3e\xac\x02\xd1\x3e\x05\x00\x00\x00\x00\x00\x00\x00\xda\x3e\x03abc\xe5\x3e\x07\x00\x00\x00\x12\xa0\x01\x0a\x011\x1a\x80\x01\x0a\x28\x0a\x02T1\x1a\x0820240501\xc8\x3e\xac\x02\xd1\x3e\x05\x00\x00\x00\x00\x00\x00\x00\xda\x3e\x03abc\xe5\x3e\x07\x00\x00\x00\x12\x3a\x08\x02\x12\x1c\x08\x3c\xc8\x3e\xac\x02\xd1\x3e\x05\x00\x00\x00\x00\x00\x00\x00\xda\x3e\x03abc\xe5\x3e\x07\x00\x00\x00\xc8\x3e\xac\x02\xd1\x3e\x05\x00\x00\x00\x00\x00\x00\x00\xda\x3e\x03abc\xe5\x3e\x07\x00\x00\x00\xc8\x3e\xac\x02\xd1\x3e\x05\x00\x00\x00\x00\x00\x00\x00\xda\x3e\x03abc\xe5\x3e\x07\x00\x00\x00\xc8\x3e\xac\x02\xd1\x3e\x05\x00\x00\x00\x00\x00\x00\x00\xda\x3e\x03abc\xe5\x3e\x07\x00\x00\x00\xc8\x3e\xac\x02\xd1\x3e\x05\x00\x00\x00\x00\x00\x00\x00\xda\x3e\x03abc\xe5\x3e\x07\x00\x00\x00";

// LATE with the fields of every message in the opposite order.
const OPPOSITE: &[u8] =
    b"\x12\x1d\x1a\x18\x12\x06\x12\x02\x08\x3c\x08\x02\x0a\x0e\x1a\x0820240501\x0a\x02T1\x0a\x011\x0a\x0d\x18\xf0\xd0\xc7\xb1\x06\x10\x00\x0a\x032.0";

// LATE with other numbers and texts before its own: version "1.0", DIFFERENTIAL, timestamp 7, id "x", trip "T9" of 20230101. And
// CANCELED, sequence 9, SKIPPED, delay -5.
const LAST_STANDS: &[u8] =
    b"\x0a\x16\x0a\x031.0\x10\x01\x18\x07\x0a\x032.0\x10\x00\x18\xf0\xd0\xc7\xb1\x06\x12\x43\x0a\x01x\x0a\x011\x1a\x3b\x0a\x20\x0a\x02T9\x1a\x0820230101\x20\x03\x0a\x02T1\x1a\x0820240501\x20\x00\x12\x17\x08\x09\x28\x01\x12\x0d\x08\xfb\xff\xff\xff\xff\xff\xff\xff\xff\x01\x08\x3c\x08\x02\x28\x00";

// LATE with a varint 7 after each text and message, and a text "7" after each number, under the same field number.
const OTHER_TYPES: &[u8] =
    b"\x0a\x15\x0a\x032.0\x10\x00\x18\xf0\xd0\xc7\xb1\x06\x08\x07\x12\x017\x1a\x017\x12\x40\x0a\x011\x1a\x37\x0a\x17\x0a\x02T1\x1a\x0820240501\x08\x07\x10\x07\x18\x07\x22\x017\x12\x18\x08\x02\x12\x08\x08\x3c\x0a\x017\x12\x017\x10\x07\x18\x07\x20\x07\x0a\x017\x2a\x017\x08\x07\x10\x07\x08\x07\x18\x07\x08\x07\x10\x07";

// header { gtfs_realtime_version: "2.0" timestamp: 5 } entity { id: "a" } entity { id: "b" trip_update {
// trip { trip_id: "T" start_time: "25:10:00" schedule_relationship: 3 }
// stop_time_update { stop_id: "S" arrival { delay: -90 } departure { time: 5000000000 } schedule_relationship: 1 }
// stop_time_update { stop_sequence: 4294967295 arrival { } schedule_relationship: 4294967298 } } }
const CANCELLED: &[u8] =
    b"\x0a\x07\x0a\x032.0\x18\x05\x12\x03\x0a\x01a\x12\x42\x0a\x01b\x1a\x3d\x0a\x0f\x0a\x01T\x12\x0825:10:00\x20\x03\x12\x1a\x12\x0b\x08\xa6\xff\xff\xff\xff\xff\xff\xff\xff\x01\x1a\x06\x10\x80\xe4\x97\xd0\x12\x22\x01S\x28\x01\x12\x0e\x08\xff\xff\xff\xff\x0f\x12\x00\x28\x82\x80\x80\x80\x10";

// header { gtfs_realtime_version: "2.0" timestamp: 5 } and the entities a to e with the trip updates
// trip { start_date: "20240501" } (no trip), trip { trip_id: "T" schedule_relationship: 1 } (an added trip),
// trip { trip_id: "T" start_date: "20240230" } (no date), trip { trip_id: "T" start_time: "7:60:00" } (no time),
// trip { trip_id: "" start_date: "" start_time: "" } (news of a trip with an empty id)
const PASSED: &[u8] =
    b"\x0a\x07\x0a\x032.0\x18\x05\x12\x11\x0a\x01a\x1a\x0c\x0a\x0a\x1a\x0820240501\x12\x0c\x0a\x01b\x1a\x07\x0a\x05\x0a\x01T\x20\x01\x12\x14\x0a\x01c\x1a\x0f\x0a\x0d\x0a\x01T\x1a\x0820240230\x12\x13\x0a\x01d\x1a\x0e\x0a\x0c\x0a\x01T\x12\x077:60:00\x12\x0d\x0a\x01e\x1a\x08\x0a\x06\x0a\x00\x12\x00\x1a\x00";

// header { gtfs_realtime_version: "2.0" incrementality: 4294967296 timestamp: 253402127999 } entity { id: "b" trip_update {
// trip { trip_id: "T" schedule_relationship: 4294967299 } stop_time_update { stop_sequence: 4294967298
// arrival { delay: 4294967206 time: -1 } schedule_relationship: 4294967297 } } } entity { id: "c" trip_update {
// trip { trip_id: "T" schedule_relationship: 4294967297 } } }: numbers of more than 32 bits, and the last moment
const WIDE: &[u8] =
    b"\x0a\x12\x0a\x032.0\x10\x80\x80\x80\x80\x10\x18\xff\xbc\xc6\xff\xaf\x07\x12\x31\x0a\x01b\x1a\x2c\x0a\x09\x0a\x01T\x20\x83\x80\x80\x80\x10\x12\x1f\x08\x82\x80\x80\x80\x10\x12\x11\x08\xa6\xff\xff\xff\x0f\x10\xff\xff\xff\xff\xff\xff\xff\xff\xff\x01\x28\x81\x80\x80\x80\x10\x12\x10\x0a\x01c\x1a\x0b\x0a\x09\x0a\x01T\x20\x81\x80\x80\x80\x10";

// DELETED as a full message with a passed trip update in its entity.
const FULL_DELETED: &[u8] =
    b"\x0a\x0d\x0a\x032.0\x10\x00\x18\xc8\xd5\xc7\xb1\x06\x12\x09\x0a\x011\x10\x01\x1a\x02\x0a\x00";

// That as a differential one.
const DELETED_PASSED: &[u8] =
    b"\x0a\x0d\x0a\x032.0\x10\x01\x18\xc8\xd5\xc7\xb1\x06\x12\x09\x0a\x011\x10\x01\x1a\x02\x0a\x00";

// A differential message without entities.
const EMPTY: &[u8] = b"\x0a\x0d\x0a\x032.0\x10\x01\x18\xf0\xd0\xc7\xb1\x06";

/// Six messages that say the same, news of every kind, and differential messages.
static MESSAGES: [(&str, &[u8]); 13] = [
    ("late", LATE),
    ("late with a field behind it", LONGER),
    ("late with unknown fields", UNKNOWN),
    ("late in the opposite order", OPPOSITE),
    ("late where the last stands", LAST_STANDS),
    ("late among other types", OTHER_TYPES),
    ("canceled", CANCELLED),
    ("passed over", PASSED),
    ("wide numbers", WIDE),
    ("deleted", DELETED),
    ("deleted in a full message", FULL_DELETED),
    ("deleted with a trip update", DELETED_PASSED),
    ("differential without entities", EMPTY),
];

/// A line for each row of `MESSAGES`, and one for ten thousand entities.
pub(super) fn put_updates(alloc: Global, text: &mut String) -> Result<(), Unmade> {
    one_meaning();
    put_each(alloc, text, &MESSAGES)?;
    put_many_entities(alloc, text)
}

/// Adds the entity of LATE ten thousand times.
fn repeat(message: &mut Vec<u8>, entity: &[u8]) -> Result<(), Unmade> {
    for _ in 0..10_000 {
        message.extend_from_slice(entity)?;
    }
    Ok(())
}

fn many(alloc: Global) -> Result<Vec<u8>, Unmade> {
    let (header, entity) = LATE.as_slice().split_at(15);
    let mut message = header.to_vec(alloc)?;
    repeat(&mut message, entity)?;
    Ok(message)
}

fn put_counts_of(alloc: Global, text: &mut String, message: &[u8]) -> Result<(), Unmade> {
    let update = read_message(alloc, message)?;
    put_counts(text, "ten thousand", &update)
}

/// How many news the entity of LATE gives that is there ten thousand times.
fn put_many_entities(alloc: Global, text: &mut String) -> Result<(), Unmade> {
    let message = many(alloc)?;
    put_counts_of(alloc, text, message.as_slice())
}
