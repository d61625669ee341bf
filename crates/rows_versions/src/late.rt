//! A message by which T1 is late, that with a field more, and one that deletes its entity. They were written by protoc 3.21 from the
//! text above each.

// A full message of 07:00:00 whose entity 1 makes T1 60 seconds late at its arrival of sequence 2:
// header { gtfs_realtime_version: "2.0" incrementality: 0 timestamp: 1714546800 } entity { id: "1" trip_update {
// trip { trip_id: "T1" start_date: "20240501" } stop_time_update { stop_sequence: 2 arrival { delay: 60 } } } }
pub(crate) const LATE: &[u8; 46] =
    b"\x0a\x0d\x0a\x032.0\x10\x00\x18\xf0\xd0\xc7\xb1\x06\x12\x1d\x0a\x011\x1a\x18\x0a\x0e\x0a\x02T1\x1a\x0820240501\x12\x06\x08\x02\x12\x02\x08\x3c";

// LATE and the field of an empty text that no reader knows.
pub(crate) const LONGER: &[u8] =
    b"\x0a\x0d\x0a\x032.0\x10\x00\x18\xf0\xd0\xc7\xb1\x06\x12\x1d\x0a\x011\x1a\x18\x0a\x0e\x0a\x02T1\x1a\x0820240501\x12\x06\x08\x02\x12\x02\x08\x3c\xca\x3e\x00";

// A differential message of 07:10:00 that deletes entity 1:
// header { gtfs_realtime_version: "2.0" incrementality: 1 timestamp: 1714547400 } entity { id: "1" is_deleted: true }
pub(crate) const DELETED: &[u8] =
    b"\x0a\x0d\x0a\x032.0\x10\x01\x18\xc8\xd5\xc7\xb1\x06\x12\x05\x0a\x011\x10\x01";
