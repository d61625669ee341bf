//! Bytes that are no message of trip updates, with the first fault of each: messages cut or joined by hand.
use super::putting::{put_each, put_fault, put_message};
use crate::late::LATE;
use rows_common::Unmade;
use std::alloc::Global;
use trip_updates::{Part, RtFault};

/// A header of the version 2.0 and the moment 5.
const HEADER: &[u8] = b"\x0a\x07\x0a\x032.0\x18\x05";

/// After `HEADER`.
static BEHIND: [(&str, &[u8]); 13] = [
    ("a second header", b"\x0a\x07\x0a\x032.0\x18\x05"),
    ("an entity without an id", b"\x12\x00"),
    ("a trip update without a trip", b"\x12\x05\x0a\x01a\x1a\x00"),
    (
        "two trip updates and a group behind them",
        b"\x12\x09\x1a\x02\x0a\x00\x1a\x02\x0a\x00\x0b",
    ),
    ("two trips", b"\x12\x06\x1a\x04\x0a\x00\x0a\x00"),
    ("two arrivals", b"\x12\x08\x1a\x06\x12\x04\x12\x00\x12\x00"),
    (
        "two departures",
        b"\x12\x08\x1a\x06\x12\x04\x1a\x00\x1a\x00",
    ),
    (
        "a trip split in two",
        b"\x12\x16\x0a\x01a\x1a\x11\x0a\x03\x0a\x01T\x0a\x0a\x1a\x0820240501",
    ),
    (
        "a trip update split in two",
        b"\x12\x10\x0a\x01a\x1a\x05\x0a\x03\x0a\x01T\x1a\x04\x12\x02\x08\x02",
    ),
    (
        "an arrival split in two",
        b"\x12\x14\x0a\x01a\x1a\x0f\x0a\x03\x0a\x01T\x12\x08\x12\x02\x08\x01\x12\x02\x10\x01",
    ),
    (
        "a departure split in two",
        b"\x12\x14\x0a\x01a\x1a\x0f\x0a\x03\x0a\x01T\x12\x08\x1a\x02\x08\x01\x1a\x02\x10\x01",
    ),
    ("an arrival cut", b"\x12\x06\x1a\x04\x12\x02\x12\x05"),
    (
        "a trip update without a trip and a group behind it",
        b"\x12\x06\x1a\x04\x12\x02\x12\x00\x0b",
    ),
];

/// Without a header before them.
static ALONE: [(&str, &[u8]); 14] = [
    ("no bytes", b""),
    ("a group alone", b"\x0b"),
    ("number 0 alone", b"\x00"),
    ("wire type 6 alone", b"\x0e"),
    (
        "a tag of ten bytes that goes on",
        b"\xff\xff\xff\xff\xff\xff\xff\xff\xff\xff",
    ),
    (
        "a tag of nine bytes that goes on",
        b"\xff\xff\xff\xff\xff\xff\xff\xff\xff",
    ),
    ("a header without a version", b"\x0a\x00"),
    ("a header without a timestamp", b"\x0a\x05\x0a\x032.0"),
    (
        "a timestamp past the last moment",
        b"\x0a\x0c\x0a\x032.0\x18\x80\xbd\xc6\xff\xaf\x07",
    ),
    (
        "differential without a timestamp",
        b"\x0a\x07\x0a\x032.0\x10\x01",
    ),
    ("differential without a version", b"\x0a\x02\x10\x01"),
    (
        "a header split in two",
        b"\x0a\x05\x0a\x032.0\x0a\x02\x18\x05",
    ),
    (
        "a header twice",
        b"\x0a\x0d\x0a\x032.0\x10\x00\x18\xf0\xd0\xc7\xb1\x06\x0a\x0d\x0a\x032.0\x10\x00\x18\xf0\xd0\xc7\xb1\x06",
    ),
    ("a group in an entity", b"\x12\x01\x0b\x0a"),
];

fn put_behind_header(
    alloc: Global,
    text: &mut String,
    name: &str,
    bytes: &[u8],
) -> Result<(), Unmade> {
    let mut message = HEADER.to_vec(alloc)?;
    message.extend_from_slice(bytes)?;
    put_message(alloc, text, name, message.as_slice())
}

/// A line for each row of `BEHIND`.
fn put_behind(alloc: Global, text: &mut String) -> Result<(), Unmade> {
    for &(name, bytes) in &BEHIND {
        put_behind_header(alloc, text, name, bytes)?;
    }
    Ok(())
}

/// A line for each front of LATE: it ends within the header, after it, or within the entity.
fn put_fronts(alloc: Global, text: &mut String) -> Result<(), Unmade> {
    for length in 1..46 {
        write!(text, "{length} ")?;
        put_message(alloc, text, "bytes of late", &LATE[..length])?;
    }
    Ok(())
}

/// A fault of each kind, whose texts are printed.
static FAULTS: [RtFault; 8] = [
    RtFault::Cut { place: 15 },
    RtFault::LongVarint { place: 0 },
    RtFault::Group { place: 2 },
    RtFault::BadField { place: 7 },
    RtFault::Missing { field: Part::Id },
    RtFault::NoMoment,
    RtFault::Repeated {
        field: Part::TripUpdate,
    },
    RtFault::NoMemory,
];

fn put_texts(text: &mut String) -> Result<(), Unmade> {
    for fault in &FAULTS {
        put_fault(text, "text", *fault)?;
    }
    Ok(())
}

/// The lines of broken messages, and the texts of faults.
pub(super) fn put_faults(alloc: Global, text: &mut String) -> Result<(), Unmade> {
    put_behind(alloc, text)?;
    put_each(alloc, text, &ALONE)?;
    put_fronts(alloc, text)?;
    put_texts(text)
}
