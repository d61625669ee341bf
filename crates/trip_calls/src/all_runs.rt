ghost use Rattle.std.specs.Prelude.{◌≡◌, ◌≤◌, All, IfErr, IfOk, List, length};
ghost use Rattle.std.specs.List.Sorted.{IsPermutation, IsSorted};
ghost use Rattle.std.specs.Ordering.{on};
ghost use Rattle.lc_model.specs.Connection.{connections_of};
ghost use Rattle.lc_model.specs.RunKey.{key_cmp};
ghost use Rattle.lc_model.specs.Text.{id_cmp};
ghost use Rattle.gtfs_tables.specs.Fields.TripRows.{HaveOneRowATrip};
ghost use Rattle.gtfs_tables.specs.Trips.StopTimeOrder.{InTripOrder};
ghost use Rattle.gtfs_tables.specs.Trips.Timely.{AreTimely};
ghost use Rattle.gtfs_tables.specs.Calendars.Spans.{AreSpans};
ghost use Rattle.gtfs_tables.specs.declared.calendars.frequency.Frequency.{Frequency as Row};
ghost use Rattle.trip_calls.specs.LoadFault.{HasCause};
ghost use Rattle.trip_calls.specs.Plannable.{ArePlannable};
ghost use Rattle.lc_model.specs.Run.{RunsForward};
ghost use Rattle.trip_calls.specs.Runs.{AreRunsOf};
ghost use Rattle.trip_calls.specs.TripRuns.{AreAllRuns};

use crate::counting::count_of;
use crate::starts::sorted_spans;
use crate::trip_runs::push_trip;
use crate::{LoadFault, MOST_CONNECTIONS};
use gtfs_tables::{Frequencies, Frequency, StopTime, StopTimes, TripRow, TripRows};
use lc_model::{NoMemory, Run, Runs};
use lc_time::Zone;
use service_days::Days;
use std::alloc::Global;
use std::cmp::Ordering;

// More runs without connections than so many count as running out of memory: each takes as much as a connection.
const MOST_BARE_RUNS: u64 = 4_000_000;

/// The runs of all trips, trip by trip, where the rows of frequencies.txt are sorted by their trips.
fn listed_runs(
    alloc: Global,
    trips: &[TripRow],
    times: &[StopTime],
    spans: &[Frequency],
    days: &Days,
    zone: &Zone,
) -> Result<Vec<Run>, NoMemory>
    requires one_row_a_trip { HaveOneRowATrip trips.now }
    requires sorted { IsSorted (on (λ (f : Row). f.trip) id_cmp) spans.now }
    requires spans { AreSpans spans.now }
    requires in_trip_order { InTripOrder times.now }
    requires timely { AreTimely times.now }
    requires plannable { ArePlannable days.now }
    ensures { IfOk result (λ runs. AreAllRuns trips.now times.now spans.now days.now zone.now runs.items) }
{
    let mut runs = Vec::new(alloc);
    'trips: for trip in trips {
        push_trip(alloc, &mut runs, trip, times, spans, days, zone)?;
    }
    Ok(runs)
}

fn by_key(a: &Run, b: &Run) -> Ordering
    ensures { result ≡ key_cmp a.now.key b.now.key }
{
    a.key.cmp(&b.key)
}

/// The runs of the trips of a feed on the dates of their services, strictly ordered by their keys. Their times are counted
/// from the anchors of these dates in the zone (GTFS Schedule Reference, field type Time). A trip that has rows in
/// frequencies.txt starts whenever they say, a start that two rows give once. Else it runs once on each date. It is refused
/// if the runs have more connections than may be, before any of them is made. More than 4,000,000 runs without a connection,
/// as of a trip with one row and a headway, are out of memory.
///
/// It takes the time of a sort of the runs, and of a sort of the rows of frequencies.txt and of their starts. It takes that
/// of all calls, and of eight binary searches for each trip.
pub fn runs(
    alloc: Global,
    trips: &TripRows,
    times: &StopTimes,
    frequencies: &Frequencies,
    days: &Days,
    zone: &Zone,
) -> Result<Runs, LoadFault>
    requires { ArePlannable days.now }
    ensures are { IfOk result (AreRunsOf trips.now times.now frequencies.now days.now zone.now) }
    ensures forward { IfOk result RunsForward }
    ensures room { IfOk result (λ runs. length (connections_of runs) ≤ MOST_CONNECTIONS) }
    ensures fault { IfErr result (HasCause trips.now times.now frequencies.now days.now zone.now) }
{
    let (trips, times) = (trips.as_slice(), times.as_slice());
    let spans = sorted_spans(alloc, frequencies)?;
    let rows = spans.as_slice();
    let count = count_of(alloc, trips, times, rows, days)?;
    if count.connections > MOST_CONNECTIONS {
        return Err(LoadFault::TooManyConnections {
            count: count.connections,
        });
    }
    // No limit of the timetable's is on runs without connections, of which a row of frequencies.txt can give millions.
    if count.bare_runs > MOST_BARE_RUNS {
        return Err(LoadFault::NoMemory);
    }
    let mut runs = listed_runs(alloc, trips, times, rows, days, zone)?;
    runs.sort_unstable_by(|a, b| by_key(a, b));
    Ok(Runs::from_list(runs))
}
