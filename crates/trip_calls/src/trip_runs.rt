ghost use Rattle.std.specs.Prelude.{◌≡◌, ◌+◌, ◌<◌, ◌≤◌, ◌++◌, IfOk, OnOk, length};
ghost use Rattle.std.specs.List.Sorted.{IsSorted};
ghost use Rattle.std.specs.Ordering.{on};
ghost use Rattle.lc_model.specs.Text.{id_cmp};
ghost use Rattle.lc_time.specs.Zone.{anchor_of};
ghost use Rattle.gtfs_tables.specs.Trips.StopTimeOrder.{InTripOrder};
ghost use Rattle.gtfs_tables.specs.Trips.Timely.{AreTimely, AreTimelyRows, rows_of};
ghost use Rattle.gtfs_tables.specs.Calendars.Spans.{AreSpans};
ghost use Rattle.gtfs_tables.specs.declared.calendars.frequency.Frequency.{Frequency as Row};
ghost use Rattle.service_days.specs.Days.{InDayOrder};
ghost use Rattle.trip_calls.specs.Plannable.{ArePlannable, IsPlannable};
ghost use Rattle.trip_calls.specs.Runs.{calls_from, calls_of};
ghost use Rattle.trip_calls.specs.Stays.{AreInDay, call_from, stays_upto};
ghost use Rattle.trip_calls.specs.TripRuns.{AddsRunsOf, HasMoments, RiseInSequence, dates_of, run_from, runs_of_trip, runs_on};

use crate::start::Start;
use crate::starts::starts_of;
use crate::stays::{Stay, first_arrival, stays};
use gtfs_tables::{Frequency, StopTime, TripRow};
use lc_model::{Call, Calls, Id, Moment, NoMemory, PlainData, Run, RunKey, ServiceDate, items_of};
use lc_time::{Zone, anchor};
use service_days::{Days, ServiceDay};
use std::alloc::Global;

/// The moment that comes so many seconds after another one.
fn moment_after(origin: u64, seconds: u32) -> Moment
    requires { origin + seconds < 253_402_128_000 }
    ensures { result ≡ origin + seconds }
{
    Moment::new(origin + u64::from(seconds)).unwrap()
}

fn call_from(
    alloc: Global,
    row: &StopTime,
    stay: Stay,
    origin: u64,
    first: u32,
) -> Result<Call, NoMemory>
    requires in_range { origin + 360_000 ≤ 253_402_128_000 }
    requires arrives_in_day { stay.arr < 360_000 }
    requires departs_in_day { stay.dep < 360_000 }
    ensures { IfOk result (λ call. call ≡ call_from origin first row.now stay) }
{
    Ok(Call {
        stop: row.stop.copy(alloc)?,
        seq: row.seq,
        arr: moment_after(origin, stay.arr.saturating_sub(first)),
        dep: moment_after(origin, stay.dep.saturating_sub(first)),
        board: row.board,
        alight: row.alight,
        arr_delay: 0,
        dep_delay: 0,
    })
}

fn calls_from(
    alloc: Global,
    rows: &[StopTime],
    stays: &[Stay],
    origin: u64,
    first: u32,
) -> Result<Calls, NoMemory>
    requires stays { stays.now ≡ stays_upto rows.now (length rows.now) }
    requires in_day { AreInDay stays.now }
    requires in_range { origin + 360_000 ≤ 253_402_128_000 }
    requires in_order { RiseInSequence rows.now }
    ensures { IfOk result (λ calls. calls ≡ calls_from origin first rows.now) }
{
    let mut calls = Vec::with_capacity(alloc, rows.len())?;
    'rows: for place in 0..rows.len() {
        calls.push(call_from(alloc, &rows[place], stays[place], origin, first)?)?;
    }
    Ok(Calls::shared(calls)?)
}

/// The calls of a run from this anchor on, with a start.
fn calls_of(
    alloc: Global,
    rows: &[StopTime],
    stays: &[Stay],
    anchor: Moment,
    start: Start,
) -> Result<Calls, NoMemory>
    requires stays { stays.now ≡ stays_upto rows.now (length rows.now) }
    requires in_day { AreInDay stays.now }
    requires in_range { HasMoments anchor }
    requires in_order { RiseInSequence rows.now }
    ensures { IfOk result (λ calls. calls ≡ calls_of anchor start.seconds rows.now) }
{
    let origin = anchor.seconds();
    let Some(seconds) = start.seconds else {
        return calls_from(alloc, rows, stays, origin, 0);
    };
    let begins = origin + u64::from(seconds);
    calls_from(alloc, rows, stays, begins, first_arrival(stays))
}

/// The run of a trip on a date with this anchor, with a start.
fn run_from(
    alloc: Global,
    rows: &[StopTime],
    stays: &[Stay],
    trip: &Id,
    date: ServiceDate,
    anchor: Moment,
    start: Start,
) -> Result<Run, NoMemory>
    requires stays { stays.now ≡ stays_upto rows.now (length rows.now) }
    requires in_day { AreInDay stays.now }
    requires in_range { HasMoments anchor }
    requires in_order { RiseInSequence rows.now }
    ensures { IfOk result (λ run. run ≡ run_from rows.now trip.now date anchor start) }
{
    let calls = calls_of(alloc, rows, stays, anchor, start)?;
    let key = RunKey {
        trip: trip.copy(alloc)?,
        date,
        start: start.seconds,
    };
    Ok(Run { key, calls })
}

/// Adds the runs of a trip on a date, one for each start.
fn push_runs_on(
    alloc: Global,
    runs: &mut Vec<Run>,
    rows: &[StopTime],
    stays: &[Stay],
    trip: &Id,
    starts: &[Start],
    day: &ServiceDay,
    zone: &Zone,
) -> Result<(), NoMemory>
    requires stays { stays.now ≡ stays_upto rows.now (length rows.now) }
    requires in_day { AreInDay stays.now }
    requires plannable { IsPlannable day.now.date }
    requires in_order { RiseInSequence rows.now }
    ensures { OnOk result (runs.new.items ≡ runs.old.items ++ runs_on zone.now rows.now trip.now starts.now day.now) }
{
    let anchor = anchor_of(zone, day.date);
    'starts: for start in starts {
        runs.push(run_from(alloc, rows, stays, trip, day.date, anchor, *start)?)?;
    }
    Ok(())
}

/// The moment from which the times of this date are counted.
fn anchor_of(zone: &Zone, date: ServiceDate) -> Moment
    requires { IsPlannable date }
    ensures is { anchor_of zone.now date ≡ Some result }
    ensures in_range { HasMoments result }
{
    anchor(zone, date).unwrap()
}

/// Adds the runs of a trip with these rows, on these dates, with these starts.
fn push_runs(
    alloc: Global,
    runs: &mut Vec<Run>,
    rows: &[StopTime],
    trip: &Id,
    starts: &[Start],
    dates: &[ServiceDay],
    zone: &Zone,
) -> Result<(), NoMemory>
    requires timely { AreTimelyRows rows.now }
    requires plannable { ArePlannable dates.now }
    requires in_order { RiseInSequence rows.now }
    ensures { OnOk result (runs.new.items ≡ runs.old.items ++ runs_of_trip zone.now rows.now trip.now starts.now dates.now) }
{
    let stays = stays(alloc, rows)?;
    'dates: for day in dates {
        push_runs_on(alloc, runs, rows, stays.as_slice(), trip, starts, day, zone)?;
    }
    Ok(())
}

/// Adds the runs of a trip of the feed, by rows of frequencies.txt that are sorted by their trips. It takes the time of its runs and
/// their calls, of four binary searches, and of a sort of the starts that its rows give.
pub(crate) fn push_trip(
    alloc: Global,
    runs: &mut Vec<Run>,
    trip: &TripRow,
    times: &[StopTime],
    spans: &[Frequency],
    days: &Days,
    zone: &Zone,
) -> Result<(), NoMemory>
    requires sorted { IsSorted (on (λ (f : Row). f.trip) id_cmp) spans.now }
    requires spans { AreSpans spans.now }
    requires in_trip_order { InTripOrder times.now }
    requires timely { AreTimely times.now }
    requires plannable { ArePlannable days.now }
    ensures { OnOk result (AddsRunsOf trip.now times.now spans.now days.now zone.now runs.old.items runs.new.items) }
{
    let rows = rows_of(times, &trip.trip);
    let starts = starts_of(alloc, spans, &trip.trip)?;
    let dates = dates_of(days, &trip.service);
    let starts = starts.as_slice();
    push_runs(alloc, runs, rows, &trip.trip, starts, dates, zone)?;
    Ok(())
}

/// The rows of a trip, found by two binary searches.
pub(crate) fn rows_of<'a>(times: &'a [StopTime], trip: &Id) -> &'a [StopTime]
    requires in_trip_order { InTripOrder times.now }
    requires timely { AreTimely times.now }
    ensures are { result.now ≡ rows_of times.now trip.now }
    ensures timely { AreTimelyRows result.now }
    ensures in_order { RiseInSequence result.now }
{
    items_of(times, trip)
}

/// The dates of a service, found by two binary searches.
pub(crate) fn dates_of<'a>(days: &'a Days, service: &Id) -> &'a [ServiceDay]
    ensures are { result.now ≡ dates_of days.now service.now }
    ensures in_order { InDayOrder result.now }
{
    items_of(days.as_slice(), service)
}
