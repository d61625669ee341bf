//! Doors in memory to which the connections of a case come, a line for each of them.
use crate::messages::MESSAGES;
use lc_io::{MemDoor, Pieces, SureDoor};
use lc_model::Bytes;
use rows_common::Unmade;
use std::alloc::Global;

/// More bytes than a connection of a case has.
pub const WHOLE: usize = 100_000;

/// A door of which no call fails. The bytes of a connection come in pieces of so many.
pub fn sure_door(alloc: Global, lines: &str, by: usize) -> Result<SureDoor, Unmade> {
    let connections = connections_of(alloc, lines, by)?;
    Ok(SureDoor::new(alloc, connections)?)
}

/// A door of which this call fails.
pub fn mem_door(alloc: Global, lines: &str, call: u64) -> Result<MemDoor, Unmade> {
    let fails = Vec::from_array(alloc, [call])?;
    let connections = connections_of(alloc, lines, WHOLE)?;
    Ok(MemDoor::new(alloc, connections, fails)?)
}

fn connections_of(alloc: Global, lines: &str, by: usize) -> Result<Vec<Pieces>, Unmade> {
    let mut list = Vec::new(alloc);
    for line in lines.lines() {
        push_connection(alloc, &mut list, line, by)?;
    }
    Ok(list)
}

fn push_connection(
    alloc: Global,
    list: &mut Vec<Pieces>,
    line: &str,
    by: usize,
) -> Result<(), Unmade> {
    list.push(pieces_of(alloc, line, by)?)?;
    Ok(())
}

fn pieces_of(alloc: Global, line: &str, by: usize) -> Result<Pieces, Unmade> {
    let bytes = bytes_of(alloc, line)?;
    pieces_from(cut(alloc, bytes.as_slice(), by)?)
}

/// Pieces, of which none may be empty.
fn pieces_from(list: Vec<Bytes>) -> Result<Pieces, Unmade> {
    if list.iter().all(|piece| !piece.as_slice().is_empty()) {
        Ok(Pieces::from_list(list))
    } else {
        Err(Unmade)
    }
}

/// The bytes in pieces of so many.
fn cut(alloc: Global, bytes: &[u8], by: usize) -> Result<Vec<Bytes>, Unmade> {
    let mut list = Vec::new(alloc);
    for piece in bytes.chunks(by.max(1)) {
        list.push(Bytes::from_list(piece.to_vec(alloc)?))?;
    }
    Ok(list)
}

/// The parts of the line are between bars, and each is sent with the end of a line after it. But the name of a message means its
/// bytes, and `-` for none.
fn bytes_of(alloc: Global, line: &str) -> Result<Vec<u8>, Unmade> {
    let mut bytes = Vec::new(alloc);
    for part in line.split('|') {
        push_part(&mut bytes, part)?;
    }
    Ok(bytes)
}

fn push_part(bytes: &mut Vec<u8>, part: &str) -> Result<(), Unmade> {
    match message(part) {
        Some(message) => bytes.extend_from_slice(message)?,
        None => push_text(bytes, part)?,
    }
    Ok(())
}

fn push_text(bytes: &mut Vec<u8>, text: &str) -> Result<(), Unmade> {
    bytes.extend_from_slice(text.as_bytes())?;
    bytes.extend_from_slice(b"\r\n")?;
    Ok(())
}

/// The bytes of the message of this name.
fn message(part: &str) -> Option<&'static [u8]> {
    if part == "-" {
        return Some(b"");
    }
    for (name, bytes) in &MESSAGES {
        if *name == part {
            return Some(*bytes);
        }
    }
    None
}
