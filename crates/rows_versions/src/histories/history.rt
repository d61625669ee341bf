//! A history of fifty messages, and how many of its versions are alike.
use super::draws::Draws;
use super::messages::message;
use super::plain::connections_after;
use super::timetable::{runs, stops};
use crate::making::MIDNIGHT;
use lc_model::{Connection, Moment, Runs, Stops, Update};
use lc_time::Zone;
use rows_common::{Draft, Unmade};
use std::alloc::Global;
use trip_updates::read_message;
use version_store::Store;

const MESSAGES: u32 = 50;

/// What versions are worked out from.
#[derive(Clone, Copy)]
struct Timetable<'a> {
    runs: &'a Runs,
    stops: &'a Stops,
}

fn store_of(alloc: Global, stops: Stops, base: Moment) -> Result<Store, Unmade> {
    let runs = runs(alloc, &stops)?;
    Ok(Store::new(alloc, runs, stops, Zone::Utc, base)?)
}

/// The store of the timetable, whose base is of 06:00:00.
fn store(alloc: Global) -> Result<Store, Unmade> {
    match Moment::new(MIDNIGHT + 21_600) {
        Some(base) => store_of(alloc, stops(alloc)?, base),
        None => Err(Unmade),
    }
}

/// Keeps what a message says.
fn push_update(alloc: Global, updates: &mut Vec<Update>, bytes: &[u8]) -> Result<(), Unmade> {
    Ok(updates.push(read_message(alloc, bytes)?)?)
}

/// The store takes the message of a minute.
fn admit(
    alloc: Global,
    store: &mut Store,
    updates: &mut Vec<Update>,
    draws: &mut Draws,
    minute: u32,
    full_of: u32,
) -> Result<(), Unmade> {
    let bytes = message(alloc, draws, 21_600 + 60 * (minute % 600), full_of)?;
    store.admit(alloc, bytes.as_slice())?;
    push_update(alloc, updates, bytes.as_slice())
}

fn admit_all(
    alloc: Global,
    store: &mut Store,
    updates: &mut Vec<Update>,
    seed: u32,
    full_of: u32,
) -> Result<(), Unmade> {
    let mut draws = Draws::new(seed);
    for minute in 1..MESSAGES + 1 {
        admit(alloc, store, updates, &mut draws, minute, full_of)?;
    }
    Ok(())
}

/// How many versions were compared, and of how many the rows and the departures are alike.
#[derive(Drop)]
struct Count {
    versions: u32,
    rows: u32,
    departures: u32,
}

fn has_rows(
    alloc: Global,
    store: &Store,
    version: Moment,
    plain: &[Connection],
) -> Result<bool, Unmade> {
    let Some(from) = Moment::new(0) else {
        return Err(Unmade);
    };
    if !store.has(version) {
        return Err(Unmade);
    }
    let rows = store.rows(alloc, version, from, None)?;
    Ok(rows.as_slice() == plain)
}

fn are_departures(departures: &[Moment], plain: &[Connection]) -> bool {
    departures.len() == plain.len()
        && departures
            .iter()
            .zip(plain)
            .all(|(departure, connection)| *departure == connection.dep)
}

fn has_departures(
    alloc: Global,
    store: &Store,
    version: Moment,
    plain: &[Connection],
) -> Result<bool, Unmade> {
    if !store.has(version) {
        return Err(Unmade);
    }
    let departures = store.departures(alloc, version)?;
    Ok(are_departures(departures.as_slice(), plain))
}

fn compare(
    alloc: Global,
    count: &mut Count,
    store: &Store,
    version: Moment,
    plain: &[Connection],
) -> Result<(), Unmade> {
    count.versions = count.versions.wrapping_add(1);
    if has_rows(alloc, store, version, plain)? {
        count.rows = count.rows.wrapping_add(1);
    }
    if has_departures(alloc, store, version, plain)? {
        count.departures = count.departures.wrapping_add(1);
    }
    Ok(())
}

/// Compares a version, and puts the number of its connections.
fn put_compared(
    alloc: Global,
    draft: &mut Draft,
    counted: &mut Count,
    store: &Store,
    version: Moment,
    plain: &[Connection],
) -> Result<(), Unmade> {
    draft.put(" ");
    draft.put_shown(&plain.len());
    compare(alloc, counted, store, version, plain)
}

/// Compares the version after so many messages.
fn put_version(
    alloc: Global,
    draft: &mut Draft,
    counted: &mut Count,
    timetable: Timetable<'_>,
    store: &Store,
    updates: &[Update],
    number: usize,
) -> Result<(), Unmade> {
    let versions = store.versions();
    if versions.len() <= number || updates.len() < number {
        return Err(Unmade);
    }
    let version = versions[number];
    let plain = connections_after(alloc, timetable.runs, timetable.stops, &updates[..number])?;
    put_compared(alloc, draft, counted, store, version, plain.as_slice())
}

fn put_count(draft: &mut Draft, count: &Count) {
    draft.put("; versions ");
    draft.put_shown(&count.versions);
    draft.put(", rows alike ");
    draft.put_shown(&count.rows);
    draft.put(", departures alike ");
    draft.put_shown(&count.departures);
    draft.put("\n");
}

fn put_versions(
    alloc: Global,
    draft: &mut Draft,
    timetable: Timetable<'_>,
    store: &Store,
    updates: &[Update],
) -> Result<(), Unmade> {
    let mut count = Count {
        versions: 0,
        rows: 0,
        departures: 0,
    };
    for number in 0..store.versions().len() {
        put_version(alloc, draft, &mut count, timetable, store, updates, number)?;
    }
    put_count(draft, &count);
    Ok(())
}

fn put_admitted(
    alloc: Global,
    draft: &mut Draft,
    timetable: Timetable<'_>,
    store: &mut Store,
    seed: u32,
    full_of: u32,
) -> Result<(), Unmade> {
    let mut updates = Vec::new(alloc);
    admit_all(alloc, store, &mut updates, seed, full_of)?;
    put_versions(alloc, draft, timetable, store, updates.as_slice())
}

fn put_made(
    alloc: Global,
    draft: &mut Draft,
    timetable: Timetable<'_>,
    seed: u32,
    full_of: u32,
) -> Result<(), Unmade> {
    let mut store = store(alloc)?;
    put_admitted(alloc, draft, timetable, &mut store, seed, full_of)
}

/// A line with the connections of each version of a made history, and how many versions are alike.
pub(super) fn put_history(
    alloc: Global,
    draft: &mut Draft,
    runs: &Runs,
    stops: &Stops,
    name: &str,
    seed: u32,
    full_of: u32,
) {
    draft.put_all(&[name, ": connections"]);
    match put_made(alloc, draft, Timetable { runs, stops }, seed, full_of) {
        Ok(()) => {}
        Err(Unmade) => draft.lose(),
    }
}
