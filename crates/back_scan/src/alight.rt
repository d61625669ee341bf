ghost use Rattle.std.specs.Prelude.{◌≡◌, ◌+◌, ◌<◌, ◌≤◌, ◌⊎◌, ◌↔◌, ℕ, IsTrue, MatchOption, None, Some, true, length};
ghost use Rattle.std.specs.List.{slice_get};
ghost use Rattle.lc_model.specs.Question.{latest_of};
ghost use Rattle.lc_model.specs.Stop.{InStopOrder};
ghost use Rattle.csa_scan.specs.declared.trace.Near.{Near};
ghost use Rattle.back_scan.specs.Alights.{CannotAlight, Catches, IsFirstAlighting, IsOnWay, IsStuck};
ghost use Rattle.back_scan.specs.Onward.{ChangesTo};
ghost use Rattle.back_scan.specs.declared.trace.Departure.{Departure};

use crate::trace::{Alighting, Departure};
use csa_scan::{Guesses, Near, guessed_place};
use lc_model::{Change, Connection, Moment, Query, Stop, StopsDoc};

/// Whether one who arrives then is at the end of the question in time, after the walk to it.
fn ends_by(query: &Query, end: Option<Near>, arr: Moment) -> bool
    ensures { IsTrue result ↔ ((n : Near) × (end ≡ Some n) × (arr + n.seconds ≤ latest_of query.now)) }
{
    match end {
        Some(near) => {
            arr.seconds() + u64::from(near.seconds)
                <= query.leave.seconds() + u64::from(query.horizon)
        }
        None => false,
    }
}

/// Whether one who arrives then changes in time for the departure.
fn is_caught(departure: Option<Departure>, arr: Moment, seconds: u32) -> bool
    ensures { IsTrue result ↔ ((d : Departure) × (departure ≡ Some d) × (arr + seconds ≤ d.dep)) }
{
    match departure {
        Some(departure) => arr.seconds() + u64::from(seconds) <= departure.dep.seconds(),
        None => false,
    }
}

/// The stop to which the change leads, if one who arrives then changes in time for the departure from it.
fn change_to(
    stops: &[Stop],
    guesses: &mut Guesses,
    departures: &[Option<Departure>],
    change: &Change,
    arr: Moment,
) -> Option<usize>
    requires in_order { InStopOrder stops.now }
    requires one_each { length departures.now ≡ length stops.now }
    ensures { MatchOption result ((place : ℕ) → ¬ Catches stops.now departures.now change.now arr place)
        (Catches stops.now departures.now change.now arr) }
{
    let place = guessed_place(guesses, stops, &change.to)?;
    if is_caught(departures[place], arr, change.seconds) {
        Some(place)
    } else {
        None
    }
}

/// A stop to which one changes in time for the departure from it. Linear in the changes from the stop.
fn caught_from(
    doc: &StopsDoc,
    guesses: &mut Guesses,
    departures: &[Option<Departure>],
    stop: usize,
    arr: Moment,
) -> Option<usize>
    requires one_each { length departures.now ≡ length doc.now.stops }
    requires within { stop < length doc.now.stops }
    ensures { MatchOption result ((place : ℕ) → ¬ ChangesTo doc.now departures.now stop arr place)
        (ChangesTo doc.now departures.now stop arr) }
{
    let stops = doc.stops.as_slice();
    // Changes are in order: one that is in the list is the one between its stops.
    let _in_order = doc.changes.as_slice();
    for change in doc.changes.from(&stops[stop].id) {
        if let Some(place) = change_to(stops, guesses, departures, change, arr) {
            return Some(place);
        }
    }
    None
}

/// How one who arrives at the stop then goes on: by the departure from a stop, or none where the journey ends. It is none
/// itself where one does not get to an end of the question in time.
fn way_on(
    query: &Query,
    doc: &StopsDoc,
    guesses: &mut Guesses,
    ends: &[Option<Near>],
    departures: &[Option<Departure>],
    stop: usize,
    arr: Moment,
) -> Option<Option<usize>>
    requires one_each { length departures.now ≡ length doc.now.stops }
    requires each_end { length ends.now ≡ length doc.now.stops }
    requires within { stop < length doc.now.stops }
    ensures { MatchOption result (IsStuck query.now doc.now ends.now departures.now stop arr)
        (IsOnWay query.now doc.now ends.now departures.now stop arr) }
{
    if ends_by(query, ends[stop], arr) {
        return Some(None);
    }
    let next = caught_from(doc, guesses, departures, stop, arr)?;
    Some(Some(next))
}

/// How the connection is left, if one gets from its stop to an end of the question in time.
fn first_alighting(
    query: &Query,
    doc: &StopsDoc,
    guesses: &mut Guesses,
    ends: &[Option<Near>],
    departures: &[Option<Departure>],
    connection: &Connection,
) -> Option<Alighting>
    requires one_each { length departures.now ≡ length doc.now.stops }
    requires each_end { length ends.now ≡ length doc.now.stops }
    ensures { MatchOption result (CannotAlight query.now doc.now ends.now departures.now connection.now)
        (IsFirstAlighting query.now doc.now ends.now departures.now connection.now) }
{
    let stop = guessed_place(guesses, doc.stops.as_slice(), &connection.arr_stop)?;
    let next = way_on(query, doc, guesses, ends, departures, stop, connection.arr)?;
    Some(Alighting {
        seq: connection.seq,
        stop,
        arr: connection.arr,
        next,
    })
}

/// How the run of the connection is left, after a later connection or after this one.
pub fn alighting(
    query: &Query,
    doc: &StopsDoc,
    guesses: &mut Guesses,
    ends: &[Option<Near>],
    departures: &[Option<Departure>],
    later: Option<Alighting>,
    connection: &Connection,
) -> Option<Alighting>
    requires one_each { length departures.now ≡ length doc.now.stops }
    requires each_end { length ends.now ≡ length doc.now.stops }
    ensures { MatchOption result
        ((later ≡ None) × (connection.now.alight ≡ true → CannotAlight query.now doc.now ends.now departures.now connection.now))
        (λ a. (later ≡ Some a) ⊎ ((later ≡ None) × (connection.now.alight ≡ true) × IsFirstAlighting query.now doc.now ends.now departures.now connection.now a)) }
{
    match later {
        Some(alighting) => Some(alighting),
        None if connection.alight => {
            first_alighting(query, doc, guesses, ends, departures, connection)
        }
        None => None,
    }
}
