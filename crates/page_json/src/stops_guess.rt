//! A stops document by a guess: what a text says if `stops_text` wrote it. Nothing is promised of a guess. Who takes one writes it
//! again and compares.

ghost use Rattle.std.specs.Prelude.{◌≤◌, IfSome};

use crate::cursor::Cursor;
use lc_model::{Change, Id, NoMemory, Stop, Text};
use memchr::memchr;
use std::alloc::Global;

/// About the bytes of the text of a change or a stop.
const ITEM_BYTES: usize = 64;

/// What a text says if `stops_text` wrote it: the URL of its document, and the lists.
#[derive(Drop)]
pub(crate) struct GuessedDoc<'a> {
    pub(crate) url: &'a str,
    pub(crate) changes: Vec<Change>,
    pub(crate) stops: Vec<Stop>,
}

/// A guess of the document that the text says, or none. Linear in the text.
pub(crate) fn guessed_doc<'a>(
    alloc: Global,
    text: &'a [u8],
) -> Result<Option<GuessedDoc<'a>>, NoMemory> {
    let mut cursor = Cursor::new(text);
    let Some(url) = url_of(&mut cursor) else {
        return Ok(None);
    };
    let Some(changes) = guessed_changes(alloc, &mut cursor)? else {
        return Ok(None);
    };
    let Some(stops) = guessed_stops(alloc, &mut cursor)? else {
        return Ok(None);
    };
    Ok(Some(GuessedDoc {
        url,
        changes,
        stops,
    }))
}

/// The URL of the document. Moves to its first change.
fn url_of<'a>(cursor: &mut Cursor<'a>) -> Option<&'a str> {
    let url = cursor.text_after(b"{\"@id\":\"")?;
    cursor.skip(b",\"changes\":[")?;
    std::str::from_utf8(url).ok()
}

/// The changes up to the end of their list.
fn guessed_changes(
    alloc: Global,
    cursor: &mut Cursor<'_>,
) -> Result<Option<Vec<Change>>, NoMemory> {
    let mut changes = Vec::with_capacity(alloc, cursor.left() / ITEM_BYTES)?;
    if push_changes(alloc, cursor, &mut changes)? {
        Ok(Some(changes))
    } else {
        Ok(None)
    }
}

/// Pushes the changes up to the end of their list. Whether there is a guess of each.
fn push_changes(
    alloc: Global,
    cursor: &mut Cursor<'_>,
    changes: &mut Vec<Change>,
) -> Result<bool, NoMemory> {
    // Each takes a byte at least.
    for _ in 0..cursor.left() {
        if cursor.skip(b"{\"from\":\"").is_none() {
            break;
        }
        match guessed_change(alloc, cursor)? {
            Some(change) => changes.push(change)?,
            None => return Ok(false),
        }
    }
    Ok(true)
}

/// The change whose first end comes next.
fn guessed_change(alloc: Global, cursor: &mut Cursor<'_>) -> Result<Option<Change>, NoMemory> {
    match change_parts(cursor) {
        Some(parts) => made_change(alloc, parts),
        None => Ok(None),
    }
}

/// The parts of a change's text, the texts in it as they are written.
#[derive(Clone, Copy)]
struct ChangeParts<'a> {
    from: &'a [u8],
    seconds: i64,
    to: &'a [u8],
}

/// The parts of the change whose first end comes next. Moves past its comma, or past its end where it is the last.
fn change_parts<'a>(cursor: &mut Cursor<'a>) -> Option<ChangeParts<'a>> {
    let from = cursor.written()?;
    let seconds = cursor.number_after(b",\"seconds\":")?;
    let to = cursor.written_after(b"\"to\":\"")?;
    skip_end(cursor)?;
    Some(ChangeParts { from, seconds, to })
}

/// Moves past the end of an item and the comma after it, if there is one.
fn skip_end(cursor: &mut Cursor<'_>) -> Option<()> {
    cursor.skip(b"}")?;
    let _comma = cursor.skip(b",");
    Some(())
}

/// The change of these parts.
fn made_change(alloc: Global, parts: ChangeParts<'_>) -> Result<Option<Change>, NoMemory> {
    let Some(seconds) = made_seconds(parts.seconds) else {
        return Ok(None);
    };
    let Some(from) = made_id(alloc, parts.from)? else {
        return Ok(None);
    };
    let Some(to) = made_id(alloc, parts.to)? else {
        return Ok(None);
    };
    Ok(Some(Change { from, to, seconds }))
}

/// The seconds of a change, if they are at least one.
fn made_seconds(seconds: i64) -> Option<u32>
    ensures { IfSome result (λ n. 1 ≤ n) }
{
    if 1 <= seconds && seconds <= i64::from(u32::MAX) {
        Some(seconds as u32)
    } else {
        None
    }
}

/// The stops up to the end of their list.
fn guessed_stops(alloc: Global, cursor: &mut Cursor<'_>) -> Result<Option<Vec<Stop>>, NoMemory> {
    if cursor.skip(b"],\"stops\":[").is_none() {
        return Ok(None);
    }
    let mut stops = Vec::with_capacity(alloc, cursor.left() / ITEM_BYTES)?;
    if push_stops(alloc, cursor, &mut stops)? {
        Ok(Some(stops))
    } else {
        Ok(None)
    }
}

/// Pushes the stops up to the end of their list. Whether there is a guess of each.
fn push_stops(
    alloc: Global,
    cursor: &mut Cursor<'_>,
    stops: &mut Vec<Stop>,
) -> Result<bool, NoMemory> {
    // Each takes a byte at least.
    for _ in 0..cursor.left() {
        if cursor.skip(b"{\"id\":\"").is_none() {
            break;
        }
        match guessed_stop(alloc, cursor)? {
            Some(stop) => stops.push(stop)?,
            None => return Ok(false),
        }
    }
    Ok(true)
}

/// The stop whose id comes next.
fn guessed_stop(alloc: Global, cursor: &mut Cursor<'_>) -> Result<Option<Stop>, NoMemory> {
    match stop_parts(cursor) {
        Some(parts) => made_stop(alloc, parts),
        None => Ok(None),
    }
}

/// The parts of a stop's text, as they are written.
#[derive(Clone, Copy)]
struct StopParts<'a> {
    id: &'a [u8],
    name: &'a [u8],
    parent: Option<&'a [u8]>,
}

/// The parts of the stop whose id comes next. Moves past its comma, or past its end where it is the last.
fn stop_parts<'a>(cursor: &mut Cursor<'a>) -> Option<StopParts<'a>> {
    let id = cursor.written()?;
    let name = cursor.written_after(b",\"name\":\"")?;
    let parent = cursor.written_after(b",\"parent\":\"");
    skip_end(cursor)?;
    Some(StopParts { id, name, parent })
}

/// The stop of these parts.
fn made_stop(alloc: Global, parts: StopParts<'_>) -> Result<Option<Stop>, NoMemory> {
    let Some(id) = made_id(alloc, parts.id)? else {
        return Ok(None);
    };
    let Some(name) = made_text(alloc, parts.name)? else {
        return Ok(None);
    };
    let Some(parent) = made_parent(alloc, parts.parent)? else {
        return Ok(None);
    };
    Ok(Some(Stop { id, name, parent }))
}

/// The parent of a stop, if it has one. None where what is written for it is no id.
fn made_parent(alloc: Global, written: Option<&[u8]>) -> Result<Option<Option<Id>>, NoMemory> {
    match written {
        Some(written) => Ok(made_id(alloc, written)?.map(Some)),
        None => Ok(Some(None)),
    }
}

/// The id that is written so.
fn made_id(alloc: Global, written: &[u8]) -> Result<Option<Id>, NoMemory> {
    if !has_escape(written) {
        return Id::new(alloc, written);
    }
    match unescaped(alloc, written)? {
        Some(text) => Id::new(alloc, text.as_slice()),
        None => Ok(None),
    }
}

/// The text that is written so.
fn made_text(alloc: Global, written: &[u8]) -> Result<Option<Text>, NoMemory> {
    if !has_escape(written) {
        return text_of(alloc, written);
    }
    match unescaped(alloc, written)? {
        Some(text) => text_of(alloc, text.as_slice()),
        None => Ok(None),
    }
}

/// The text of these bytes, if they are UTF-8.
fn text_of(alloc: Global, bytes: &[u8]) -> Result<Option<Text>, NoMemory> {
    match std::str::from_utf8(bytes) {
        Ok(text) => Ok(Some(Text::from_string(String::from_str(alloc, text)?))),
        Err(_) => Ok(None),
    }
}

fn has_escape(written: &[u8]) -> bool {
    memchr(b'\\', written).is_some()
}

/// The bytes that are written so, with escapes of one letter. None where there is another escape.
fn unescaped(alloc: Global, written: &[u8]) -> Result<Option<Vec<u8>>, NoMemory> {
    let mut bytes = Vec::with_capacity(alloc, written.len())?;
    let mut escaped = false;
    for byte in written {
        if escaped {
            match meant_by(*byte) {
                Some(meant) => bytes.push(meant)?,
                None => return Ok(None),
            }
            escaped = false;
        } else if *byte == b'\\' {
            escaped = true;
        } else {
            bytes.push(*byte)?;
        }
    }
    Ok(Some(bytes))
}

/// The byte that this letter after a backslash means (RFC 8259, section 7).
fn meant_by(letter: u8) -> Option<u8> {
    match letter {
        b'"' | b'\\' => Some(letter),
        b'b' => Some(8),
        b't' => Some(b'\t'),
        b'n' => Some(b'\n'),
        b'f' => Some(12),
        b'r' => Some(b'\r'),
        _ => None,
    }
}
