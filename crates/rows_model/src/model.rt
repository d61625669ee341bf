//! Moments, ids and changes; journeys, directories and sinks, updates and cuts in the files beside it.
mod cuts;
mod files;
mod journeys;
mod updates;

use crate::making::id;
use lc_model::{Change, Changes, Id, Moment, PlainData, Stop, Text, copy_each};
use rows_common::{Draft, Unmade, put_bytes, put_count, put_flag, put_line, put_number};
use std::alloc::Global;

/// A line for each value.
pub(crate) fn put_model(alloc: Global, draft: &mut Draft) {
    let mut text = String::new(alloc);
    let made = put_all(alloc, &mut text);
    draft.put_part(text.as_str(), made);
}

fn put_all(alloc: Global, text: &mut String) -> Result<(), Unmade> {
    put_words(alloc, text)?;
    journeys::put_journeys(alloc, text)?;
    files::put_files(alloc, text)?;
    updates::put_updates(alloc, text)?;
    cuts::put_ways(alloc, text)
}

fn put_words(alloc: Global, text: &mut String) -> Result<(), Unmade> {
    put_moments(text)?;
    put_ids(alloc, text)?;
    put_changes(alloc, text)
}

/// The first and the last moment, and the first second past them: 9999-12-30T00:00:00Z, by `date -u -d @253402128000`.
const MOMENTS: [(&str, u64); 4] = [
    ("moment at 0", 0),
    ("moment at 253402127999", 253_402_127_999),
    ("moment at 253402128000", 253_402_128_000),
    ("moment at 18446744073709551615", u64::MAX),
];

/// A line for each of `MOMENTS`: its seconds, or that it is none.
fn put_moments(text: &mut String) -> Result<(), Unmade> {
    for &(name, seconds) in &MOMENTS {
        put_moment(text, name, Moment::new(seconds))?;
    }
    Ok(())
}

fn put_moment(text: &mut String, name: &str, moment: Option<Moment>) -> Result<(), Unmade> {
    match moment {
        Some(moment) => put_number(text, name, moment.seconds()),
        None => put_line(text, name, "none"),
    }
}

/// An id is a UTF-8 text that is not empty.
const IDS: [(&str, &[u8]); 4] = [
    ("id that is empty", b""),
    ("id that is no UTF-8", b"\xff"),
    ("id that ends within a letter", b"a\xc3"),
    ("id", b"a/b \xc3\xbc"),
];

/// Two ids, of which the first comes before the second.
const RISING: [(&str, &str, &str); 2] = [
    ("id T1 before T10", "T1", "T10"),
    ("id T10 before T2", "T10", "T2"),
];

/// Each of `IDS`, as it is read, and a line for each of `RISING`.
fn put_ids(alloc: Global, text: &mut String) -> Result<(), Unmade> {
    for &(name, bytes) in &IDS {
        put_id(alloc, text, name, bytes)?;
    }
    for &(name, first, second) in &RISING {
        put_order(alloc, text, name, first, second)?;
    }
    Ok(())
}

fn put_id(alloc: Global, text: &mut String, name: &str, bytes: &[u8]) -> Result<(), Unmade> {
    match Id::new(alloc, bytes) {
        Ok(Some(id)) => put_parts_of_id(alloc, text, name, &id),
        Ok(None) => put_line(text, name, "none"),
        Err(_) => Err(Unmade),
    }
}

fn put_parts_of_id(alloc: Global, text: &mut String, name: &str, id: &Id) -> Result<(), Unmade> {
    put_line(text, name, id.as_str())?;
    put_bytes(text, "bytes of the id", id.bytes())?;
    match id.copy(alloc) {
        Ok(copy) => put_flag(text, "its copy equals it", copy == *id),
        Err(_) => Err(Unmade),
    }
}

fn put_order(
    alloc: Global,
    text: &mut String,
    name: &str,
    first: &str,
    second: &str,
) -> Result<(), Unmade> {
    let before = id(alloc, first)?;
    let after = id(alloc, second)?;
    put_flag(text, name, before < after)
}

fn change(alloc: Global) -> Result<Change, Unmade> {
    let from = id(alloc, "A")?;
    let to = id(alloc, "B")?;
    Ok(Change {
        from,
        to,
        seconds: 300,
    })
}

fn changes(alloc: Global) -> Result<Changes, Unmade> {
    let list = vec![in alloc; change(alloc)?]?;
    Ok(Changes::from_list(list)?)
}

/// The change from the first of two stops to the second, and its copy; and the copy of a stop.
fn put_changes(alloc: Global, text: &mut String) -> Result<(), Unmade> {
    put_stops(alloc, text)?;
    let changes = changes(alloc)?;
    put_changes_and_copy(alloc, text, &changes)
}

fn put_changes_and_copy(alloc: Global, text: &mut String, changes: &Changes) -> Result<(), Unmade> {
    put_seconds(alloc, text, "as they were made", changes)?;
    match changes.copy(alloc) {
        Ok(copy) => put_seconds(alloc, text, "as they were copied", &copy),
        Err(_) => Err(Unmade),
    }
}

/// The seconds of the changes between A and B, and how many changes there are.
fn put_seconds(
    alloc: Global,
    text: &mut String,
    name: &str,
    changes: &Changes,
) -> Result<(), Unmade> {
    put_line(text, "changes", name)?;
    let a = id(alloc, "A")?;
    let b = id(alloc, "B")?;
    put_seconds_between(text, changes, &a, &b)
}

fn put_seconds_between(text: &mut String, changes: &Changes, a: &Id, b: &Id) -> Result<(), Unmade> {
    put_change(text, "from A to B", changes.between(a, b))?;
    put_change(text, "from B to A", changes.between(b, a))?;
    put_change(text, "from A to A", changes.between(a, a))?;
    put_count(text, "number of changes", changes.as_slice().len())
}

fn put_change(text: &mut String, name: &str, seconds: Option<u32>) -> Result<(), Unmade> {
    match seconds {
        Some(seconds) => put_number(text, name, u64::from(seconds)),
        None => put_line(text, name, "none"),
    }
}

fn stop(alloc: Global) -> Result<Stop, Unmade> {
    let name = Text::from_string(String::from_str(alloc, "A")?);
    let id = id(alloc, "A")?;
    Ok(Stop {
        id,
        name,
        parent: None,
    })
}

fn put_stops(alloc: Global, text: &mut String) -> Result<(), Unmade> {
    let stops = [stop(alloc)?];
    put_copied_stops(alloc, text, &stops)
}

fn put_copied_stops(alloc: Global, text: &mut String, stops: &[Stop]) -> Result<(), Unmade> {
    match copy_each(alloc, stops) {
        Ok(copies) => put_names(text, copies.as_slice()),
        Err(_) => Err(Unmade),
    }
}

fn put_names(text: &mut String, stops: &[Stop]) -> Result<(), Unmade> {
    for stop in stops {
        put_line(text, "name of a copied stop", stop.name.as_str())?;
    }
    put_count(text, "number of copied stops", stops.len())
}
