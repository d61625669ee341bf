ghost use Rattle.std.specs.Prelude.{◌≡◌, ◌==◌, ◌<◌, ◌&&◌, ◌||◌, not, IfOk, IfSome, None, Some, codes, false, if◌then◌else◌, length, map};
ghost use Rattle.std.specs.Bool.{OnTrue};
ghost use Rattle.std.specs.List.{HoldsAt};
ghost use Rattle.lc_time.specs.Clock.{gtfs_time_said};
ghost use Rattle.gtfs_tables.specs.Fields.Columns.{row_at, text_at};
ghost use Rattle.gtfs_tables.specs.Fields.Places.{is_unknown};
ghost use Rattle.gtfs_tables.specs.Fields.Times.{is_wrong_time as wrong_time};
ghost use Rattle.gtfs_tables.specs.Fields.TextPlaces.{HavePlaces};
ghost use Rattle.gtfs_tables.specs.Trips.SoundRows.{AreNeighboursApart, AreRising, AreSortedApart, AreSoundAlone, AreSoundVisits, SaysVisit};
ghost use Rattle.gtfs_tables.specs.Trips.StopTimeColumns.{AreStopTimeColumns};
ghost use Rattle.gtfs_tables.specs.Trips.StopTimeRows.{ids_of_stops, ids_of_trips, sequence_of};
ghost use Rattle.gtfs_tables.specs.Trips.Trips.{trip_id_of};
ghost use Rattle.gtfs_tables.specs.Trips.Visits.{allows as said_right, visits_of_rows};

use crate::TripRow;
use crate::fields::columns::text;
use crate::fields::known::places_of_ids;
use crate::fields::times::read_time;
use crate::trips::groups::by_groups;
use crate::trips::guesses::{Guess, Guesses};
use crate::trips::near::{stop_near, trip_near};
use crate::trips::stop_time_rows::StopTimeColumns;
use crate::trips::visits::{Visit, allows, by_trip, compare};
use gtfs_rows::Rows;
use lc_model::{Id, NoMemory, PlainData, Stop};
use lc_time::read_u32;
use std::alloc::Global;
use std::collections::BTreeMap;

/// What a row says, and where its trip and its stop are.
#[derive(Drop)]
pub(crate) struct Reported {
    visit: Visit,
    trip: usize,
    stop: usize,
}

/// The stop that a row names, where it names one, and where it is.
#[derive(Drop)]
pub(crate) struct SaidStop {
    id: Option<Id>,
    place: usize,
}

/// The times that a row says.
#[derive(Clone, Copy)]
pub(crate) struct SaidTimes {
    arr: Option<u32>,
    dep: Option<u32>,
}

/// Where the trip of a row is, and what the row says of its number and its times.
#[derive(Clone, Copy)]
pub(crate) struct SaidRow {
    trip: usize,
    seq: u32,
    times: SaidTimes,
}

/// Whether passengers may board and alight where a row says so.
#[derive(Clone, Copy)]
pub(crate) struct Rights {
    board: bool,
    alight: bool,
}

/// The visits of the rows, by trip and sequence, where no row breaks a rule. There are none where a row may break one. The ids of the
/// visits are those of the stops and the trips. Whether a trip and a number are there twice shows once the visits are
/// sorted. Of n rows, stops and trips: n log n.
pub(crate) fn sound_visits(
    alloc: Global,
    rows: &Rows,
    columns: StopTimeColumns,
    stops: &[Stop],
    trips: &[TripRow],
) -> Result<Option<Vec<Visit>>, NoMemory>
    requires { AreStopTimeColumns rows.now columns }
    ensures { IfOk result (λ found. IfSome found (λ visits. AreSoundVisits stops.now trips.now rows.now visits.items)) }
{
    let Some(visits) = reported_visits(alloc, rows, columns, stops, trips)? else {
        return Ok(None);
    };
    if are_rising(visits.as_slice()) {
        return Ok(Some(visits));
    }
    sorted_apart(alloc, visits)
}

// Whether the visits are strictly in the order of trip and number already. Linear in the visits.
fn are_rising(visits: &[Visit]) -> bool
    ensures { OnTrue result (AreRising visits.now) }
{
    'visits: for place in 1..visits.len() {
        if !compare(&visits[place - 1], &visits[place]).is_lt() {
            return false;
        }
    }
    true
}

// These visits by trip and number, if no two have one trip and one number.
fn sorted_apart(alloc: Global, visits: Vec<Visit>) -> Result<Option<Vec<Visit>>, NoMemory>
    ensures { IfOk result (λ found. IfSome found (λ sorted. AreSortedApart visits.items sorted.items)) }
{
    // Once whole trips are moved, there is mostly nothing left to sort.
    let moved = by_groups(alloc, visits)?;
    let sorted = by_trip(moved)?;
    Ok(if_apart(sorted))
}

// These visits, if no two side by side have one trip and one number.
fn if_apart(visits: Vec<Visit>) -> Option<Vec<Visit>>
    ensures same { IfSome result (λ same. same.items ≡ visits.items) }
    ensures apart { IfSome result (λ _. AreNeighboursApart visits.items) }
{
    if are_apart(visits.as_slice()) {
        Some(visits)
    } else {
        None
    }
}

// Whether no two visits side by side have one trip and one number. Linear in the visits.
fn are_apart(visits: &[Visit]) -> bool
    ensures { OnTrue result (AreNeighboursApart visits.now) }
{
    'visits: for place in 1..visits.len() {
        if compare(&visits[place - 1], &visits[place]).is_eq() {
            return false;
        }
    }
    true
}

// The visits of the rows, in their order, if none of the rows breaks a rule by itself.
fn reported_visits<'a>(
    alloc: Global,
    rows: &'a Rows,
    columns: StopTimeColumns,
    stops: &'a [Stop],
    trips: &'a [TripRow],
) -> Result<Option<Vec<Visit>>, NoMemory>
    requires { AreStopTimeColumns rows.now columns }
    ensures said { IfOk result (λ recorded. IfSome recorded (λ visits. visits.items ≡ visits_of_rows rows.now)) }
    ensures sound { IfOk result (λ recorded. IfSome recorded (λ _. AreSoundAlone stops.now trips.now rows.now)) }
{
    let places = places_of_ids(alloc, trips)?;
    let mut guesses = Guesses::new(alloc, stops)?;
    visits_with(alloc, rows, columns, stops, trips, &places, &mut guesses)
}

// The visits of the rows, in their order, by this map of the ids of trips. None where a row breaks a rule by itself.
fn visits_with<'a>(
    alloc: Global,
    rows: &'a Rows,
    columns: StopTimeColumns,
    stops: &[Stop],
    trips: &[TripRow],
    places: &BTreeMap<&'a [u8], usize>,
    guesses: &mut Guesses,
) -> Result<Option<Vec<Visit>>, NoMemory>
    requires columns { AreStopTimeColumns rows.now columns }
    requires places { HavePlaces (ids_of_trips trips.now) places.now }
    ensures said { IfOk result (λ recorded. IfSome recorded (λ visits. visits.items ≡ visits_of_rows rows.now)) }
    ensures sound { IfOk result (λ recorded. IfSome recorded (λ _. AreSoundAlone stops.now trips.now rows.now)) }
{
    let mut visits = Vec::with_capacity(alloc, rows.len())?;
    'rows: for place in 0..rows.len() {
        let guess = guesses.next(stops, text(rows, place, columns.stop));
        let Some(recorded) = reported_visit(
            alloc, rows, columns, stops, trips, places, guess, place,
        )?
        else {
            return Ok(None);
        };
        guesses.learn(recorded.trip, recorded.stop);
        visits.push(recorded.visit)?;
    }
    Ok(Some(visits))
}

// What the row at this place says, if it breaks no rule by itself.
fn reported_visit<'a>(
    alloc: Global,
    rows: &'a Rows,
    columns: StopTimeColumns,
    stops: &[Stop],
    trips: &[TripRow],
    places: &BTreeMap<&'a [u8], usize>,
    guess: Guess,
    place: usize,
) -> Result<Option<Reported>, NoMemory>
    requires there { place < length rows.now.rows }
    requires columns { AreStopTimeColumns rows.now columns }
    requires places { HavePlaces (ids_of_trips trips.now) places.now }
    ensures { IfOk result (λ recorded. IfSome recorded (λ t. SaysVisit stops.now trips.now rows.now place t.visit)) }
{
    // There are fewer rows than `usize` counts.
    let _count = rows.len();
    let stop_id = text(rows, place, columns.stop);
    let Some(said) = said_row(rows, columns, trips, places, stop_id, guess.trip, place) else {
        return Ok(None);
    };
    let Some(stop) = stop_said(alloc, stops, stop_id, guess.stop)? else {
        return Ok(None);
    };
    let rights = rights_said(rows, columns, place);
    let visit = Visit {
        trip: trips[said.trip].trip.copy(alloc)?,
        stop: stop.id,
        seq: said.seq,
        arr: said.times.arr,
        dep: said.times.dep,
        board: rights.board,
        alight: rights.alight,
        row: (place + 1) as u64,
    };
    Ok(Some(Reported {
        visit,
        trip: said.trip,
        stop: stop.place,
    }))
}

// Where the trip of the row at this place is, its number and its times, if these break no rule. The row names this
// stop. Its trip may be the one at the place `near`, or the next.
fn said_row<'a>(
    rows: &'a Rows,
    columns: StopTimeColumns,
    trips: &[TripRow],
    places: &BTreeMap<&'a [u8], usize>,
    stop: &[u8],
    near: usize,
    place: usize,
) -> Option<SaidRow>
    requires there { place < length rows.now.rows }
    requires columns { AreStopTimeColumns rows.now columns }
    requires places { HavePlaces (ids_of_trips trips.now) places.now }
    ensures named { IfSome result (λ _. (length (trip_id_of rows.now (row_at rows.now place)) == 0) ≡ false) }
    ensures within { IfSome result (λ said. said.trip < length trips.now) }
    ensures same { IfSome result (λ said. HoldsAt (λ t. t.trip ≡ trip_id_of rows.now (row_at rows.now place)) trips.now said.trip) }
    ensures seq { IfSome result (λ said. Some said.seq ≡ sequence_of rows.now (row_at rows.now place)) }
    ensures arr { IfSome result (λ said. said.times.arr ≡ gtfs_time_said (text_at rows.now (row_at rows.now place) (codes "arrival_time"))) }
    ensures dep { IfSome result (λ said. said.times.dep ≡ gtfs_time_said (text_at rows.now (row_at rows.now place) (codes "departure_time"))) }
    ensures timed { IfSome result (λ _. (not (length stop.now == 0) && (wrong_time (text_at rows.now (row_at rows.now place) (codes "arrival_time"))
        || wrong_time (text_at rows.now (row_at rows.now place) (codes "departure_time")))) ≡ false) }
{
    let trip_id = text(rows, place, columns.trip);
    if trip_id.is_empty() {
        return None;
    }
    let Some(trip) = trip_near(places, trips, trip_id, near) else {
        return None;
    };
    let Some(seq) = read_u32(text(rows, place, columns.seq)) else {
        return None;
    };
    let Some(times) = times_said(rows, columns, stop, place) else {
        return None;
    };
    Some(SaidRow { trip, seq, times })
}

// The times that the row at this place says, if none of them is unreadable where the row has this stop.
fn times_said(rows: &Rows, columns: StopTimeColumns, stop: &[u8], place: usize) -> Option<SaidTimes>
    requires there { place < length rows.now.rows }
    requires columns { AreStopTimeColumns rows.now columns }
    ensures arr { IfSome result (λ times. times.arr ≡ gtfs_time_said (text_at rows.now (row_at rows.now place) (codes "arrival_time"))) }
    ensures dep { IfSome result (λ times. times.dep ≡ gtfs_time_said (text_at rows.now (row_at rows.now place) (codes "departure_time"))) }
    ensures read { IfSome result (λ _. (not (length stop.now == 0) && (wrong_time (text_at rows.now (row_at rows.now place) (codes "arrival_time"))
        || wrong_time (text_at rows.now (row_at rows.now place) (codes "departure_time")))) ≡ false) }
{
    let arr_text = text(rows, place, columns.arr);
    let dep_text = text(rows, place, columns.dep);
    let (arr, dep) = (read_time(arr_text), read_time(dep_text));
    if has_unread_time(stop, arr_text, arr, dep_text, dep) {
        None
    } else {
        Some(SaidTimes { arr, dep })
    }
}

// What the row at this place says of boarding and alighting.
fn rights_said(rows: &Rows, columns: StopTimeColumns, place: usize) -> Rights
    requires there { place < length rows.now.rows }
    requires columns { AreStopTimeColumns rows.now columns }
    ensures board { result.board ≡ said_right (text_at rows.now (row_at rows.now place) (codes "pickup_type")) }
    ensures alight { result.alight ≡ said_right (text_at rows.now (row_at rows.now place) (codes "drop_off_type")) }
{
    Rights {
        board: allows(text(rows, place, columns.pickup)),
        alight: allows(text(rows, place, columns.drop_off)),
    }
}

// The stop that a row names, where it names one, if it names none that is not known. It may be the one at the place `near`.
fn stop_said(
    alloc: Global,
    stops: &[Stop],
    text: &[u8],
    near: usize,
) -> Result<Option<SaidStop>, NoMemory>
    ensures value { IfOk result (λ recorded. IfSome recorded (λ said. said.id ≡ (if length text.now == 0 then None else Some text.now))) }
    ensures known { IfOk result (λ recorded. IfSome recorded (λ _. is_unknown (ids_of_stops stops.now) text.now ≡ false)) }
{
    if text.is_empty() {
        return Ok(Some(SaidStop {
            id: None,
            place: near,
        }));
    }
    let Some(place) = stop_near(stops, text, near) else {
        return Ok(None);
    };
    Ok(Some(SaidStop {
        id: Some(stops[place].id.copy(alloc)?),
        place,
    }))
}

// Whether a row with a stop has a time that is unreadable, where this is what its texts say.
fn has_unread_time(
    stop: &[u8],
    arr_text: &[u8],
    arr: Option<u32>,
    dep_text: &[u8],
    dep: Option<u32>,
) -> bool
    requires arr { arr ≡ gtfs_time_said arr_text.now }
    requires dep { dep ≡ gtfs_time_said dep_text.now }
    ensures { result ≡ (not (length stop.now == 0) && (wrong_time arr_text.now || wrong_time dep_text.now)) }
{
    !stop.is_empty() && (is_unread(arr_text, arr) || is_unread(dep_text, dep))
}

// Whether a text that is not empty says no time.
fn is_unread(text: &[u8], time: Option<u32>) -> bool
    requires { time ≡ gtfs_time_said text.now }
    ensures { result ≡ wrong_time text.now }
{
    !text.is_empty() && time.is_none()
}
