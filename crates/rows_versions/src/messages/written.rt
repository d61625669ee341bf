//! Fields as they are written, byte by byte, and the bytes that another encoder writes of them.
use rows_common::Unmade;
use rt_protobuf::{put_bytes, put_varint};
use std::alloc::Global;

/// A number, and what is written of it: a varint or bytes.
static VARINTS: [(&str, u32, u64); 7] = [
    ("a=0", 1, 0),
    ("a=127", 1, 127),
    ("a=128", 1, 128),
    ("a=150", 1, 150),
    ("a=300", 1, 300),
    ("a=18446744073709551615", 1, u64::MAX),
    ("e=5", 536_870_911, 5),
];

static TEXTS: [(&str, u32, &[u8]); 3] = [
    ("c=\"testing\"", 3, b"testing"),
    ("c=\"\"", 3, b""),
    ("f=\"A\"", 16, b"A"),
];

/// A line for each row of the tables, in hexadecimal digits, and one of two fields that are written one after the other.
pub(super) fn put_written(alloc: Global, text: &mut String) -> Result<(), Unmade> {
    for &(name, number, value) in &VARINTS {
        put_one(alloc, text, name, number, value)?;
    }
    for &(name, number, bytes) in &TEXTS {
        put_text(alloc, text, name, number, bytes)?;
    }
    put_both(alloc, text)
}

fn put_one(
    alloc: Global,
    text: &mut String,
    name: &str,
    number: u32,
    value: u64,
) -> Result<(), Unmade> {
    if number == 0 || number > 536_870_911 {
        return Err(Unmade);
    }
    let mut out = Vec::new(alloc);
    put_varint(&mut out, number, value)?;
    put_hex(text, name, out.as_slice())
}

fn put_text(
    alloc: Global,
    text: &mut String,
    name: &str,
    number: u32,
    bytes: &[u8],
) -> Result<(), Unmade> {
    if number == 0 || number > 536_870_911 {
        return Err(Unmade);
    }
    let mut out = Vec::new(alloc);
    put_bytes(&mut out, number, bytes)?;
    put_hex(text, name, out.as_slice())
}

fn put_both(alloc: Global, text: &mut String) -> Result<(), Unmade> {
    let mut out = Vec::new(alloc);
    put_varint(&mut out, 1, 300)?;
    put_bytes(&mut out, 3, b"testing")?;
    put_hex(text, "a=300 c=\"testing\"", out.as_slice())
}

fn put_hex(text: &mut String, name: &str, bytes: &[u8]) -> Result<(), Unmade> {
    write!(text, "writing {name}: ")?;
    for byte in bytes {
        write!(text, "{byte:02x}")?;
    }
    text.push_str("\n")?;
    Ok(())
}
