ghost use Rattle.std.specs.Prelude.{◌≡◌, ◌⊎◌, ◌<◌, ◌+◌, ◌++◌, [], ◌∷◌, IfErr, IfOk, OnOk, filter, length, not};
ghost use Rattle.std.specs.List.{filter_map};
ghost use Rattle.gtfs_tables.specs.Fields.Rules.{IsUnbroken};
ghost use Rattle.gtfs_tables.specs.Fields.Table.{IsFileFault, IsRowFault};
ghost use Rattle.gtfs_tables.specs.declared.fields.trip_rows.TripRow.{TripRow as Trip};
ghost use Rattle.gtfs_tables.specs.Trips.LeftOut.{AreLeftOut, AreSorted, is_in, time_unless};
ghost use Rattle.gtfs_tables.specs.Trips.OnTime.{AreOfTrips, AreOnTime};
ghost use Rattle.gtfs_tables.specs.Trips.StopTimeRows.{most_stop_times, stop_time_rule_at, stop_times_columns};
ghost use Rattle.gtfs_tables.specs.Trips.SoundRows.{AreSoundVisits};
ghost use Rattle.gtfs_tables.specs.Trips.StopTimes.{AreStopTimesOf, AreTimed, IsStopTimesFault, SaysVisits, time_of as time_of_visit};
ghost use Rattle.gtfs_tables.specs.Trips.Timing.{IsTripFault, is_left_out, trip_fault as said_fault, trip_fault_at};
ghost use Rattle.gtfs_tables.specs.Trips.Visits.{visit_cmp};
ghost use Rattle.lc_model.specs.Order.{IsStrict};

use crate::fields::file_rows::file_rows;
use crate::trips::left_out::{is_left, stopless_trips, trips_of};
use crate::trips::sound_visits::sound_visits;
use crate::trips::stop_time_rows::{check_rows, stop_time_columns};
use crate::trips::timing::timing_fault;
use crate::trips::trip_places::places_of_trip;
use crate::trips::visits::{Visit, sorted_visits};
use crate::trips::{StopTime, StopTimes};
use crate::{FileFault, TripRow, TripRows};
use gtfs_rows::Rows;
use lc_model::{Id, NoMemory, Stop, Stops};
use std::alloc::Global;

// At most so many stop times are read.
const MOST_STOP_TIMES: usize = 8_000_000;

/// What stop_times.txt says of the trips of a feed.
#[derive(Drop)]
pub struct TimedTrips {
    /// The trips that are not left out: each of their rows names a stop. In the order of trips.txt.
    pub trips: TripRows,
    /// The stop times of these trips.
    pub times: StopTimes,
    /// How many trips are left out.
    pub left_out: u64,
}

/// The stop times that stop_times.txt says of these stops and trips, by trip and sequence. Of n rows, stops and trips:
/// n log n.
pub fn read_stop_times(
    alloc: Global,
    bytes: &[u8],
    stops: &Stops,
    trips: TripRows,
) -> Result<TimedTrips, FileFault>
    ensures times { IfOk result (λ read. AreStopTimesOf stops.now trips bytes.now read.times read.trips) }
    ensures left_out { IfOk result (λ read. read.left_out + length read.trips ≡ length trips) }
    ensures fault { IfErr result (λ fault. (fault ≡ FileFault.NoMemory) ⊎ IsStopTimesFault stops.now trips bytes.now fault) }
{
    match read_visits(alloc, bytes, stops.as_slice(), trips.as_slice()) {
        Ok(visits) => timed(alloc, visits, trips),
        Err(fault) => Err(fault),
    }
}

// The visits of the rows, by trip and sequence, or the first row that breaks a rule by itself.
fn read_visits(
    alloc: Global,
    bytes: &[u8],
    stops: &[Stop],
    trips: &[TripRow],
) -> Result<Vec<Visit>, FileFault>
    ensures visits { IfOk result (λ visits. SaysVisits stops.now trips.now bytes.now visits.items) }
    ensures fault { IfErr result (λ fault. (fault ≡ FileFault.NoMemory) ⊎ IsFileFault stop_times_columns most_stop_times (stop_time_rule_at stops.now trips.now) bytes.now fault) }
{
    let columns = [
        "trip_id",
        "stop_id",
        "stop_sequence",
        "arrival_time",
        "departure_time",
    ];
    let rows = file_rows(alloc, bytes, &columns, MOST_STOP_TIMES)?;
    let visits = judged_visits(alloc, &rows, stops, trips)?;
    Ok(visits)
}

// The visits of the rows, by trip and sequence, or the first row that breaks a rule by itself. It is only looked for where
// there may be one.
fn judged_visits(
    alloc: Global,
    rows: &Rows,
    stops: &[Stop],
    trips: &[TripRow],
) -> Result<Vec<Visit>, FileFault>
    ensures visits { IfOk result (λ visits. AreSoundVisits stops.now trips.now rows.now visits.items) }
    ensures fault { IfErr result (λ fault. (fault ≡ FileFault.NoMemory) ⊎ IsRowFault (stop_time_rule_at stops.now trips.now rows.now) (length rows.now.rows) fault) }
{
    let columns = stop_time_columns(rows);
    if let Some(sound) = sound_visits(alloc, rows, columns, stops, trips)? {
        return Ok(sound);
    }
    check_rows(alloc, rows, columns, stops, trips)?;
    let visits = sorted_visits(alloc, rows, columns)?;
    Ok(visits)
}

// What the visits say of the trips, or the first trip whose rows break a rule together.
fn timed(alloc: Global, visits: Vec<Visit>, trips: TripRows) -> Result<TimedTrips, FileFault>
    requires in_order { IsStrict visit_cmp visits.items }
    requires of_trips { AreOfTrips trips visits.items }
    ensures times { IfOk result (λ read. AreTimed visits.items trips read.times read.trips) }
    ensures left_out { IfOk result (λ read. read.left_out + length read.trips ≡ length trips) }
    ensures fault { IfErr result (λ fault. (fault ≡ FileFault.NoMemory) ⊎ IsTripFault visits.items trips fault) }
{
    let stopless = stopless_trips(alloc, visits.as_slice())?;
    let left = trips_of(alloc, stopless.as_slice())?;
    timed_without(alloc, visits, trips, left.as_slice())
}

// What the visits say of the trips where these are left out, or the first trip whose rows break a rule together.
fn timed_without(
    alloc: Global,
    visits: Vec<Visit>,
    trips: TripRows,
    left: &[&[u8]],
) -> Result<TimedTrips, FileFault>
    requires in_order { IsStrict visit_cmp visits.items }
    requires of_trips { AreOfTrips trips visits.items }
    requires left { AreLeftOut visits.items left.now }
    ensures times { IfOk result (λ read. AreTimed visits.items trips read.times read.trips) }
    ensures left_out { IfOk result (λ read. read.left_out + length read.trips ≡ length trips) }
    ensures fault { IfErr result (λ fault. (fault ≡ FileFault.NoMemory) ⊎ IsTripFault visits.items trips fault) }
{
    match check_trips(visits.as_slice(), trips.as_slice(), left) {
        Ok(()) => {
            let read = kept(alloc, visits, trips, left)?;
            Ok(read)
        }
        Err(fault) => Err(fault),
    }
}

// The trips that are none of these, and their stop times.
fn kept(
    alloc: Global,
    visits: Vec<Visit>,
    trips: TripRows,
    left: &[&[u8]],
) -> Result<TimedTrips, NoMemory>
    requires in_order { IsStrict visit_cmp visits.items }
    requires left { AreLeftOut visits.items left.now }
    requires on_time { AreOnTime visits.items }
    ensures times { IfOk result (λ read. read.times ≡ filter_map (time_of_visit visits.items) visits.items) }
    ensures trips { IfOk result (λ read. read.trips ≡ filter (λ (t : Trip). not (is_left_out visits.items t.trip)) trips) }
    ensures left_out { IfOk result (λ read. read.left_out + length read.trips ≡ length trips) }
{
    let times = times_of(alloc, visits, left)?;
    let all = trips.into_list();
    let count = all.as_slice().len();
    let few = kept_of(alloc, all, left)?;
    let kept = few.as_slice().len();
    let left_out = (count - kept) as u64;
    Ok(TimedTrips {
        trips: TripRows::from_list(few),
        times: StopTimes::from_list(times),
        left_out,
    })
}

// Whether the rows of no trip break a rule together; else the first trip whose rows do, and the rule.
fn check_trips(visits: &[Visit], trips: &[TripRow], left: &[&[u8]]) -> Result<(), FileFault>
    requires in_order { IsStrict visit_cmp visits.now }
    requires left { AreLeftOut visits.now left.now }
    ensures timed { OnOk result (IsUnbroken (trip_fault_at visits.now trips.now) (length trips.now)) }
    ensures fault { IfErr result (IsTripFault visits.now trips.now) }
{
    // Trips are mostly in the order of their ids, as the visits are.
    let mut near = 0;
    'trips: for place in 0..trips.len() {
        let judged = judged_at(visits, trips, place, left, near);
        if let Some((rule, row)) = judged.fault {
            return Err(FileFault::Broken { rule, row });
        }
        near = judged.end;
    }
    Ok(())
}

/// The first rule that the rows of a trip break together, and the row; and where its visits end.
#[derive(Clone, Copy)]
pub(crate) struct Judged {
    fault: Option<(u8, u64)>,
    end: usize,
}

// The trip at this place. Its visits may begin at the place `near`.
fn judged_at(
    visits: &[Visit],
    trips: &[TripRow],
    place: usize,
    left: &[&[u8]],
    near: usize,
) -> Judged
    requires there { place < length trips.now }
    requires in_order { IsStrict visit_cmp visits.now }
    requires left { AreLeftOut visits.now left.now }
    ensures { result.fault ≡ trip_fault_at visits.now trips.now place }
{
    judged_trip(visits, &trips[place].trip, left, near)
}

fn judged_trip(visits: &[Visit], trip: &Id, left: &[&[u8]], near: usize) -> Judged
    requires in_order { IsStrict visit_cmp visits.now }
    requires left { AreLeftOut visits.now left.now }
    ensures { result.fault ≡ said_fault visits.now trip.now }
{
    if is_left(left, trip) {
        return Judged {
            fault: None,
            end: near,
        };
    }
    let (first, end) = places_of_trip(visits, trip, near);
    Judged {
        fault: timing_fault(&visits[first..end]),
        end,
    }
}

// The trips that are none of these, in their order.
fn kept_of(alloc: Global, trips: Vec<TripRow>, left: &[&[u8]]) -> Result<Vec<TripRow>, NoMemory>
    requires { AreSorted left.now }
    ensures { IfOk result (λ kept. kept.items ≡ filter (λ (t : Trip). not (is_in left.now t.trip)) trips.items) }
{
    let mut kept = Vec::with_capacity(alloc, trips.len())?;
    'trips: for trip in trips {
        push_unless_left(&mut kept, trip, left)?;
    }
    Ok(kept)
}

fn push_unless_left(kept: &mut Vec<TripRow>, trip: TripRow, left: &[&[u8]]) -> Result<(), NoMemory>
    requires { AreSorted left.now }
    ensures { OnOk result (kept.new.items ≡ kept.old.items ++ filter (λ (t : Trip). not (is_in left.now t.trip)) (trip ∷ [])) }
{
    if !is_left(left, &trip.trip) {
        kept.push(trip)?;
    }
    Ok(())
}

// The stop times of the visits whose trips are none of these, in their order.
fn times_of(alloc: Global, visits: Vec<Visit>, left: &[&[u8]]) -> Result<Vec<StopTime>, NoMemory>
    requires { AreSorted left.now }
    ensures { IfOk result (λ times. times.items ≡ filter_map (time_unless left.now) visits.items) }
{
    let mut times = Vec::with_capacity(alloc, visits.len())?;
    'visits: for visit in visits {
        push_time(&mut times, visit, left)?;
    }
    Ok(times)
}

fn push_time(times: &mut Vec<StopTime>, visit: Visit, left: &[&[u8]]) -> Result<(), NoMemory>
    requires { AreSorted left.now }
    ensures { OnOk result (times.new.items ≡ times.old.items ++ filter_map (time_unless left.now) (visit ∷ [])) }
{
    if let Some(time) = time_of(visit, left) {
        times.push(time)?;
    }
    Ok(())
}

// The stop time of a visit, if its trip is none of these.
fn time_of(visit: Visit, left: &[&[u8]]) -> Option<StopTime>
    requires { AreSorted left.now }
    ensures { result ≡ time_unless left.now visit }
{
    if is_left(left, &visit.trip) {
        return None;
    }
    let stop = visit.stop?;
    Some(StopTime {
        trip: visit.trip,
        stop,
        seq: visit.seq,
        arr: visit.arr,
        dep: visit.dep,
        board: visit.board,
        alight: visit.alight,
    })
}
