//! Fields of the wire format, as an outside encoder writes them, and the faults of broken bytes (Protocol Buffers, Encoding).
use rows_common::{Unmade, put_line};
use rt_protobuf::{Field, Value, WireFault, next_field, one_parting};

/// A line of what is at a place: the number of a field, what it holds and the place after it. Or the end, or a fault.
fn put_next(
    text: &mut String,
    name: &str,
    bytes: &[u8],
    from: usize,
    to: usize,
) -> Result<(), Unmade> {
    if from > to || to > bytes.len() {
        return Err(Unmade);
    }
    match next_field(bytes, from, to) {
        Ok(Some(field)) => put_field(text, name, field),
        Ok(None) => put_line(text, name, "the end"),
        Err(fault) => put_fault(text, name, fault),
    }
}

fn put_field(text: &mut String, name: &str, field: Field) -> Result<(), Unmade> {
    let number = field.number;
    write!(text, "{name}: {number} ")?;
    put_value(text, field.value, field.next)
}

/// What a field holds, and the place after it.
fn put_value(text: &mut String, value: Value, next: usize) -> Result<(), Unmade> {
    let (word, held) = match value {
        Value::Varint(held) => ("varint", held),
        Value::Eight(held) => ("eight", held),
        Value::Span { from, to } => return put_span(text, from, to, next),
        Value::Four(held) => ("four", u64::from(held)),
    };
    writeln!(text, "{word} {held}, next {next}")?;
    Ok(())
}

fn put_span(text: &mut String, from: usize, to: usize, next: usize) -> Result<(), Unmade> {
    writeln!(text, "span {from} {to}, next {next}")?;
    Ok(())
}

fn put_fault(text: &mut String, name: &str, fault: WireFault) -> Result<(), Unmade> {
    let (word, place) = match fault {
        WireFault::Cut { place } => ("cut", place),
        WireFault::LongVarint { place } => ("long varint", place),
        WireFault::Group { place } => ("group", place),
        WireFault::BadField { place } => ("bad field", place),
    };
    writeln!(text, "{name}: {word} {place}")?;
    Ok(())
}

/// Three fields one after another, as protoc writes "a: 300 d: 7", with an empty text between them.
const THREE: &[u8] = b"\x08\xac\x02\x1a\x00\x2d\x07\x00\x00\x00";

/// A tag and a number that are written longer than they need be.
const LONG: &[u8] = b"\x88\x80\x00\x85\x80\x80\x00";

/// Bytes, and the place in them at which the field begins.
static FIELDS: [(&str, &[u8], usize); 31] = [
    // Written by protoc 3.21 from a schema of the fields 1 a (uint64), 2 b (fixed64), 3 c (bytes), 5 d (fixed32), 536870911 e (int32).
    // The command is printf '%s' TEXT | protoc --encode=M m.proto, of the text before each row. There '=' stands for its colon.
    ("a=150", b"\x08\x96\x01", 0),
    (
        "a=18446744073709551615",
        b"\x08\xff\xff\xff\xff\xff\xff\xff\xff\xff\x01",
        0,
    ),
    (
        "b=72623859790382856",
        b"\x11\x08\x07\x06\x05\x04\x03\x02\x01",
        0,
    ),
    ("c=\"testing\"", b"\x1a\x07testing", 0),
    ("d=16909060", b"\x2d\x04\x03\x02\x01", 0),
    ("e=5", b"\xf8\xff\xff\xff\x0f\x05", 0),
    (
        "e=-2",
        b"\xf8\xff\xff\xff\x0f\xfe\xff\xff\xff\xff\xff\xff\xff\xff\x01",
        0,
    ),
    ("c=\"\\010\\001\"", b"\x1a\x02\x08\x01", 0),
    // Each field of THREE, and the end.
    ("the first of three", THREE, 0),
    ("the second", THREE, 3),
    ("the third", THREE, 5),
    ("behind the third", THREE, 10),
    // What the standard says of broken bytes, each after one byte that is no part of it.
    ("a group begins", b"\x00\x0b", 1),
    ("a group ends", b"\x00\x0c", 1),
    ("number 0", b"\x00\x00", 1),
    ("number 0 of a group", b"\x00\x03", 1),
    ("wire type 6", b"\x00\x0e", 1),
    ("wire type 7", b"\x00\x0f", 1),
    ("number 536870912", b"\x00\x80\x80\x80\x80\x10\x00", 1),
    (
        "number 536870912 of a group",
        b"\x00\x83\x80\x80\x80\x10",
        1,
    ),
    (
        "a tag that goes on behind ten bytes",
        b"\x00\xff\xff\xff\xff\xff\xff\xff\xff\xff\xff",
        1,
    ),
    (
        "a tag cut behind nine bytes",
        b"\x00\xff\xff\xff\xff\xff\xff\xff\xff\xff",
        1,
    ),
    ("a tag alone", b"\x00\x08", 1),
    (
        "a number of eleven bytes",
        b"\x00\x08\x80\x80\x80\x80\x80\x80\x80\x80\x80\x80\x01",
        1,
    ),
    (
        "a length of eleven bytes",
        b"\x00\x12\xff\xff\xff\xff\xff\xff\xff\xff\xff\xff\x01",
        1,
    ),
    ("a text of two bytes cut behind one", b"\x00\x12\x02\x41", 1),
    (
        "a text of 2^64 - 1 bytes cut behind one",
        b"\x00\x12\xff\xff\xff\xff\xff\xff\xff\xff\xff\x01\x41",
        1,
    ),
    (
        "eight bytes cut behind seven",
        b"\x00\x09\x01\x02\x03\x04\x05\x06\x07",
        1,
    ),
    ("four bytes cut behind three", b"\x00\x0d\x01\x02\x03", 1),
    // Ten bytes of which the last has bits above 64, which are dropped; and a number written longer than it need be.
    (
        "bits above 64",
        b"\x08\x81\x80\x80\x80\x80\x80\x80\x80\x80\x7e",
        0,
    ),
    ("written long", LONG, 0),
];

/// A line for each row of `FIELDS`, and one where the bytes in hand end before the message does.
pub(super) fn put_wire(text: &mut String) -> Result<(), Unmade> {
    one_parting();
    for &(name, bytes, place) in &FIELDS {
        put_next(text, name, bytes, place, bytes.len())?;
    }
    put_next(text, "written long and cut", LONG, 0, 6)
}
