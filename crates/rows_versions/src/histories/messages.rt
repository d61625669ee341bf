//! Messages whose entities are drawn (GTFS Realtime Reference; Protocol Buffers, Encoding).
use super::draws::Draws;
use super::timetable::{FURTHER, STOPS, TRIPS};
use crate::making::MIDNIGHT;
use rows_common::Unmade;
use std::alloc::Global;

/// What is drawn for an entity.
#[derive(Drop)]
struct Drawn {
    /// Ten trips of the timetable, and then five further ones.
    trip: u32,
    /// In one of four cases a second entity speaks of the trip.
    second: bool,
    act: u32,
    amount: u32,
    /// In one of five cases the date is that of the message.
    dated: bool,
}

const SCHEDULED: u64 = 0;

const ADDED: u64 = 1;

const CANCELED: u64 = 3;

fn draw(draws: &mut Draws) -> Drawn {
    let trip = draws.below(15);
    let second = draws.below(4) == 0;
    let act = draws.below(6);
    let amount = draws.below(600);
    let dated = draws.below(5) > 0;
    Drawn {
        trip,
        second,
        act,
        amount,
        dated,
    }
}

fn put_varint(bytes: &mut Vec<u8>, number: u64) -> Result<(), Unmade> {
    let mut rest = number;
    for _ in 0..10 {
        if rest < 128 {
            return Ok(bytes.push(rest as u8)?);
        }
        bytes.push((rest % 128) as u8 + 128)?;
        rest /= 128;
    }
    Ok(())
}

fn put_number(bytes: &mut Vec<u8>, tag: u8, number: u64) -> Result<(), Unmade> {
    bytes.push(tag)?;
    put_varint(bytes, number)
}

fn put_part(bytes: &mut Vec<u8>, tag: u8, part: &[u8]) -> Result<(), Unmade> {
    put_number(bytes, tag, part.len() as u64)?;
    Ok(bytes.extend_from_slice(part)?)
}

fn name(trip: u32) -> &'static str {
    let trip = trip as usize;
    if trip < TRIPS.len() {
        TRIPS[trip]
    } else {
        FURTHER[trip % FURTHER.len()]
    }
}

fn put_trip(trip: &mut Vec<u8>, drawn: &Drawn, kind: u64) -> Result<(), Unmade> {
    put_part(trip, 0x0a, name(drawn.trip).as_bytes())?;
    if drawn.dated {
        put_part(trip, 0x1a, b"20240501")?;
    }
    put_number(trip, 0x20, kind)
}

/// The trip of an entity: its id, its date and what the news are.
fn put_descriptor(
    alloc: Global,
    bytes: &mut Vec<u8>,
    drawn: &Drawn,
    kind: u64,
) -> Result<(), Unmade> {
    let mut trip = Vec::new(alloc);
    put_trip(&mut trip, drawn, kind)?;
    put_part(bytes, 0x0a, trip.as_slice())
}

/// An event so many seconds late, or at a moment.
fn put_event(
    alloc: Global,
    bytes: &mut Vec<u8>,
    tag: u8,
    inner: u8,
    number: u64,
) -> Result<(), Unmade> {
    let mut event = Vec::new(alloc);
    put_number(&mut event, inner, number)?;
    put_part(bytes, tag, event.as_slice())
}

fn put_served(
    alloc: Global,
    stop: &mut Vec<u8>,
    seq: u64,
    late: Option<u32>,
) -> Result<(), Unmade> {
    put_number(stop, 0x08, seq)?;
    match late {
        Some(late) => put_event(alloc, stop, 0x12, 0x08, late as u64),
        None => put_number(stop, 0x28, 1),
    }
}

/// The news of the stop of a sequence: it is left out, or the trip is late from there on.
fn put_sequence(
    alloc: Global,
    bytes: &mut Vec<u8>,
    seq: u64,
    late: Option<u32>,
) -> Result<(), Unmade> {
    let mut stop = Vec::new(alloc);
    put_served(alloc, &mut stop, seq, late)?;
    put_part(bytes, 0x12, stop.as_slice())
}

/// A stop of a further trip: its departure, and its id.
fn put_stop(alloc: Global, bytes: &mut Vec<u8>, id: &str, second: u32) -> Result<(), Unmade> {
    let mut stop = Vec::new(alloc);
    let moment = MIDNIGHT + second as u64;
    put_event(alloc, &mut stop, 0x1a, 0x10, moment)?;
    put_part(&mut stop, 0x22, id.as_bytes())?;
    put_part(bytes, 0x12, stop.as_slice())
}

/// The stops of a further trip, two to four, five minutes one after the other. The second is unknown where the act is 5.
fn put_stops(alloc: Global, bytes: &mut Vec<u8>, act: u32, amount: u32) -> Result<(), Unmade> {
    let amount = amount % 600;
    for place in 0..2 + amount % 3 {
        let id = if act == 5 && place == 1 {
            "Q"
        } else {
            STOPS[((amount + place) % 6) as usize]
        };
        put_stop(alloc, bytes, id, 28_800 + 10 * amount + 300 * place)?;
    }
    Ok(())
}

/// News of a trip of the timetable: it is canceled, leaves out a stop, is late from a stop on, or is said to be a further one.
fn put_known(alloc: Global, update: &mut Vec<u8>, drawn: &Drawn) -> Result<(), Unmade> {
    match drawn.act {
        1 => put_descriptor(alloc, update, drawn, CANCELED),
        2 => {
            put_descriptor(alloc, update, drawn, SCHEDULED)?;
            put_sequence(alloc, update, 2, None)
        }
        3 => {
            put_descriptor(alloc, update, drawn, SCHEDULED)?;
            put_sequence(alloc, update, 1, Some(drawn.amount))
        }
        4 => {
            put_descriptor(alloc, update, drawn, SCHEDULED)?;
            put_sequence(alloc, update, 3, Some(drawn.amount))
        }
        _ => {
            put_descriptor(alloc, update, drawn, ADDED)?;
            put_stops(alloc, update, drawn.act, drawn.amount)
        }
    }
}

/// News of a further trip: it is canceled, or runs.
fn put_further(alloc: Global, update: &mut Vec<u8>, drawn: &Drawn) -> Result<(), Unmade> {
    if drawn.act == 1 {
        return put_descriptor(alloc, update, drawn, CANCELED);
    }
    put_descriptor(alloc, update, drawn, ADDED)?;
    put_stops(alloc, update, drawn.act, drawn.amount)
}

fn put_update(alloc: Global, entity: &mut Vec<u8>, drawn: &Drawn) -> Result<(), Unmade> {
    let mut update = Vec::new(alloc);
    if drawn.trip < 10 {
        put_known(alloc, &mut update, drawn)?;
    } else {
        put_further(alloc, &mut update, drawn)?;
    }
    put_part(entity, 0x1a, update.as_slice())
}

/// The id of an entity: the trip's name and a letter.
fn put_id(alloc: Global, entity: &mut Vec<u8>, drawn: &Drawn) -> Result<(), Unmade> {
    let mut id = name(drawn.trip).as_bytes().to_vec(alloc)?;
    id.push(if drawn.second { b'b' } else { b'a' })?;
    put_part(entity, 0x0a, id.as_slice())
}

/// An entity is deleted where the act is 0.
fn put_said(alloc: Global, entity: &mut Vec<u8>, drawn: &Drawn) -> Result<(), Unmade> {
    put_id(alloc, entity, drawn)?;
    if drawn.act == 0 {
        put_number(entity, 0x10, 1)
    } else {
        put_update(alloc, entity, drawn)
    }
}

fn put_entity(alloc: Global, bytes: &mut Vec<u8>, drawn: &Drawn) -> Result<(), Unmade> {
    let mut entity = Vec::new(alloc);
    put_said(alloc, &mut entity, drawn)?;
    put_part(bytes, 0x12, entity.as_slice())
}

fn put_head(header: &mut Vec<u8>, is_full: bool, second: u32) -> Result<(), Unmade> {
    put_part(header, 0x0a, b"2.0")?;
    put_number(header, 0x10, if is_full { 0 } else { 1 })?;
    put_number(header, 0x18, MIDNIGHT + second as u64)
}

fn put_header(
    alloc: Global,
    bytes: &mut Vec<u8>,
    is_full: bool,
    second: u32,
) -> Result<(), Unmade> {
    let mut header = Vec::new(alloc);
    put_head(&mut header, is_full, second)?;
    put_part(bytes, 0x0a, header.as_slice())
}

fn put_entities(alloc: Global, bytes: &mut Vec<u8>, draws: &mut Draws) -> Result<(), Unmade> {
    let count = 1 + draws.below(4);
    for _ in 0..count {
        put_entity(alloc, bytes, &draw(draws))?;
    }
    Ok(())
}

/// A message of a second of the day, with one to four entities. It is full in one of so many cases.
pub(super) fn message(
    alloc: Global,
    draws: &mut Draws,
    second: u32,
    full_of: u32,
) -> Result<Vec<u8>, Unmade> {
    let mut bytes = Vec::new(alloc);
    let is_full = full_of > 0 && draws.below(full_of) == 0;
    put_header(alloc, &mut bytes, is_full, second)?;
    put_entities(alloc, &mut bytes, draws)?;
    Ok(bytes)
}
