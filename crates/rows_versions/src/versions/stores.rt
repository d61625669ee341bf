//! Versions after messages, over three trips of 2024-05-01.
use super::messages::message;
use super::trips::{run, second, stops};
use crate::making::MIDNIGHT;
use lc_model::{Connection, Moment, Run, Runs, Stops};
use lc_time::Zone;
use rows_common::{Draft, Unmade};
use std::alloc::Global;
use version_store::{
    AdmitFault, Admitted, Store, cuts_do_not_matter, message_date, one_list_of_rows, one_outcome,
};

static TRIPS: [&str; 3] = ["T1", "T2", "T3"];

/// The words of messages in their order, and the second of the day at which the version is known, or the newest.
type History = (&'static str, &'static str, Option<u32>);

static HISTORIES: [History; 19] = [
    ("none", "", None),
    ("late twice", "late late", None),
    ("late, known before it", "late", Some(25_199)),
    ("late, known at it", "late", Some(25_200)),
    ("skipped", "skipped", None),
    ("late and deleted", "late deleted", None),
    (
        "longer and deleted, known before that",
        "longer deleted",
        Some(25_799),
    ),
    ("late and another canceled", "late canceled", None),
    (
        "late, and another canceled in full",
        "late all_canceled",
        None,
    ),
    ("X1 over an unknown stop", "added", None),
    ("X1 directly", "direct", None),
    ("X1, known before it", "direct", Some(26_999)),
    ("T1 added, which is known", "known", None),
    (
        "T1 late, T2 canceled, X1 beside",
        "late canceled beside",
        None,
    ),
    ("then X1 deleted", "late canceled beside gone", None),
    ("then T2 back", "late canceled beside gone back", None),
    (
        "all of these, known while X1 was there",
        "late canceled beside gone back",
        Some(27_100),
    ),
    (
        "the late one deleted first",
        "late deleted canceled beside gone back",
        None,
    ),
    ("no bytes", "no_bytes", None),
];

fn moment(second: u32) -> Option<Moment> {
    Moment::new(MIDNIGHT + second as u64)
}

fn push_runs(alloc: Global, list: &mut Vec<Run>, stops: &Stops) -> Result<(), Unmade> {
    for trip in &TRIPS {
        push_run(alloc, list, stops, trip)?;
    }
    Ok(())
}

fn push_run(alloc: Global, list: &mut Vec<Run>, stops: &Stops, trip: &str) -> Result<(), Unmade> {
    let run = run(alloc, stops, trip, trip)?;
    Ok(list.push(run)?)
}

fn runs(alloc: Global, stops: &Stops) -> Result<Runs, Unmade> {
    let mut list = Vec::new(alloc);
    push_runs(alloc, &mut list, stops)?;
    match Runs::try_from_list(list) {
        Ok(runs) => Ok(runs),
        Err(_) => Err(Unmade),
    }
}

fn store_of(alloc: Global, stops: Stops, base: Moment) -> Result<Store, Unmade> {
    let runs = runs(alloc, &stops)?;
    Ok(Store::new(alloc, runs, stops, Zone::Utc, base)?)
}

/// The store of the trips, whose base is of 06:00:00.
fn store(alloc: Global) -> Result<Store, Unmade> {
    let Some(base) = moment(21_600) else {
        return Err(Unmade);
    };
    let stops = stops(alloc)?;
    store_of(alloc, stops, base)
}

/// What becomes of the messages, one after the other.
fn put_admitted(alloc: Global, draft: &mut Draft, store: &mut Store, words: &str) {
    for word in words.split_whitespace() {
        put_outcome(draft, store.admit(alloc, message(word)));
    }
}

fn put_outcome(draft: &mut Draft, outcome: Result<Admitted, AdmitFault>) {
    match outcome {
        Ok(admitted) => put_moment(draft, admitted.moment, admitted.passed),
        Err(fault) => draft.put_shown(&fault),
    }
    draft.put("; ");
}

fn put_moment(draft: &mut Draft, moment: Moment, passed: u32) {
    draft.put_shown(&second(moment));
    draft.put(" ");
    draft.put_shown(&passed);
}

/// Each row: trip and sequence, departure and arrival.
pub(super) fn put_connections(draft: &mut Draft, list: &[Connection]) {
    for row in list {
        put_connection(draft, row);
    }
    draft.put("\n");
}

fn put_connection(draft: &mut Draft, row: &Connection) {
    draft.put(row.key.trip.as_str());
    draft.put("/");
    draft.put_shown(&row.seq);
    draft.put(" ");
    draft.put_shown(&second(row.dep));
    draft.put(" ");
    draft.put_shown(&second(row.arr));
    draft.put("; ");
}

/// The rows of a version, from 08:00 on.
fn put_rows(alloc: Global, draft: &mut Draft, store: &Store, version: Moment) {
    let Some(from) = moment(28_800) else {
        return draft.lose();
    };
    if !store.has(version) {
        return draft.lose();
    }
    draft.put("=> ");
    match store.rows(alloc, version, from, None) {
        Ok(list) => put_connections(draft, list.as_slice()),
        Err(_) => draft.lose(),
    }
}

fn known_at(known: Option<u32>) -> Option<Moment> {
    match known {
        Some(second) => moment(second),
        None => None,
    }
}

/// What becomes of the messages of a history, and the rows of the version.
fn put_history_of(
    alloc: Global,
    draft: &mut Draft,
    store: &mut Store,
    &(name, words, known): &History,
) {
    draft.put_all(&[name, ": "]);
    put_admitted(alloc, draft, store, words);
    let version = store.named(known_at(known));
    put_rows(alloc, draft, store, version);
}

fn put_history(alloc: Global, draft: &mut Draft, history: &History) {
    match store(alloc) {
        Ok(mut store) => put_history_of(alloc, draft, &mut store, history),
        Err(Unmade) => draft.lose(),
    }
}

/// A line for each row of `HISTORIES`.
pub(super) fn put_histories(alloc: Global, draft: &mut Draft) {
    one_list_of_rows();
    one_outcome();
    cuts_do_not_matter();
    for history in &HISTORIES {
        put_history(alloc, draft, history);
    }
}

/// Each moment by its second of the day.
pub(super) fn put_moments(draft: &mut Draft, moments: &[Moment], end: &str) {
    for moment in moments {
        draft.put_shown(&second(*moment));
        draft.put(end);
    }
}

fn put_departures(alloc: Global, draft: &mut Draft, store: &Store, version: Moment) {
    if !store.has(version) {
        return draft.lose();
    }
    match store.departures(alloc, version) {
        Ok(departures) => put_moments(draft, departures.as_slice(), " "),
        Err(_) => draft.lose(),
    }
}

fn put_day(draft: &mut Draft, version: Moment) {
    let date = message_date(&Zone::Utc, version);
    draft.put("on ");
    draft.put_shown(&date.day);
    draft.put("\n");
}

fn put_versions_of(alloc: Global, draft: &mut Draft, store: &mut Store) {
    draft.put("versions and departures: ");
    put_admitted(alloc, draft, store, "late late cut");
    put_moments(draft, store.versions(), "; ");
    let newest = store.newest();
    put_departures(alloc, draft, store, newest);
    put_day(draft, newest);
}

/// The versions, and the departures of the newest, after a message, the same again and its front: they are those of the first.
pub(super) fn put_versions(alloc: Global, draft: &mut Draft) {
    match store(alloc) {
        Ok(mut store) => put_versions_of(alloc, draft, &mut store),
        Err(Unmade) => draft.lose(),
    }
}
