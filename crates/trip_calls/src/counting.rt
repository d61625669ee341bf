ghost use Rattle.std.specs.Prelude.{◌≡◌, ◌+◌, ◌*◌, [], ◌∷◌, IfOk};
ghost use Rattle.std.specs.List.Sorted.{IsSorted};
ghost use Rattle.std.specs.Ordering.{on};
ghost use Rattle.lc_model.specs.Text.{id_cmp};
ghost use Rattle.lc_time.specs.declared.zone.Zone.{Zone as Clock};
ghost use Rattle.gtfs_tables.specs.Fields.TripRows.{HaveOneRowATrip};
ghost use Rattle.gtfs_tables.specs.Trips.StopTimeOrder.{InTripOrder};
ghost use Rattle.gtfs_tables.specs.Trips.Timely.{AreTimely};
ghost use Rattle.gtfs_tables.specs.Calendars.Spans.{AreSpans};
ghost use Rattle.gtfs_tables.specs.declared.calendars.frequency.Frequency.{Frequency as Row};
ghost use Rattle.trip_calls.specs.Counting.{HaveConnections};
ghost use Rattle.trip_calls.specs.Plannable.{ArePlannable};

use crate::starts::start_count;
use crate::trip_runs::{dates_of, rows_of};
use gtfs_tables::{Frequency, StopTime, TripRow};
use lc_model::NoMemory;
use service_days::Days;
use std::alloc::Global;

/// The product of three numbers. One that 64 bits cannot count is out of memory: as many connections have no room.
fn product(a: u64, b: u64, c: u64) -> Result<u64, NoMemory>
    ensures { IfOk result (λ count. count ≡ a * b * c) }
{
    let runs = a.checked_mul(b).ok_or(NoMemory)?;
    runs.checked_mul(c).ok_or(NoMemory)
}

/// The sum of two numbers. One that 64 bits cannot count is out of memory.
fn sum(a: u64, b: u64) -> Result<u64, NoMemory>
    ensures { IfOk result (λ count. count ≡ a + b) }
{
    a.checked_add(b).ok_or(NoMemory)
}

/// How many connections runs have, and how many runs have none.
#[derive(Clone, Copy)]
pub(crate) struct Count {
    pub(crate) connections: u64,
    pub(crate) bare_runs: u64,
}

/// How many runs without a connection a trip has, with so many dates, starts and pairs of rows. They are as many as 64 bits count
/// where there are more.
fn bare_runs(dates: u64, starts: u64, pairs: u64) -> u64 {
    if pairs == 0 {
        dates.saturating_mul(starts)
    } else {
        0
    }
}

/// How many connections the runs of a trip have, of which none is made: two calls in a row for each date and each start.
fn trip_count(
    alloc: Global,
    trip: &TripRow,
    times: &[StopTime],
    spans: &[Frequency],
    days: &Days,
) -> Result<Count, NoMemory>
    requires sorted { IsSorted (on (λ (f : Row). f.trip) id_cmp) spans.now }
    requires spans { AreSpans spans.now }
    requires in_trip_order { InTripOrder times.now }
    requires timely { AreTimely times.now }
    requires plannable { ArePlannable days.now }
    ensures { IfOk result (λ count. (zone : Clock) → HaveConnections (trip.now ∷ []) times.now spans.now days.now zone count.connections) }
{
    let rows = rows_of(times, &trip.trip);
    let pairs = rows.len().saturating_sub(1);
    let starts = start_count(alloc, spans, &trip.trip)?;
    let dates = dates_of(days, &trip.service).len();
    let connections = product(dates as u64, starts, pairs as u64)?;
    let bare_runs = bare_runs(dates as u64, starts, pairs as u64);
    Ok(Count {
        connections,
        bare_runs,
    })
}

/// How many connections the runs of the trips have, of which none is made. For each trip it takes four binary searches. Where
/// it has several rows of frequencies.txt it takes a sort of the starts that they give. These are sorted by their trips.
pub(crate) fn count_of(
    alloc: Global,
    trips: &[TripRow],
    times: &[StopTime],
    spans: &[Frequency],
    days: &Days,
) -> Result<Count, NoMemory>
    requires one_row_a_trip { HaveOneRowATrip trips.now }
    requires sorted { IsSorted (on (λ (f : Row). f.trip) id_cmp) spans.now }
    requires spans { AreSpans spans.now }
    requires in_trip_order { InTripOrder times.now }
    requires timely { AreTimely times.now }
    requires plannable { ArePlannable days.now }
    ensures { IfOk result (λ count. (zone : Clock) → HaveConnections trips.now times.now spans.now days.now zone count.connections) }
{
    let mut connections: u64 = 0;
    let mut bare_runs: u64 = 0;
    'trips: for trip in trips {
        let more = trip_count(alloc, trip, times, spans, days)?;
        connections = sum(connections, more.connections)?;
        bare_runs = bare_runs.saturating_add(more.bare_runs);
    }
    Ok(Count {
        connections,
        bare_runs,
    })
}
