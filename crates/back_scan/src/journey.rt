ghost use Rattle.std.specs.Prelude.{◌≡◌, ◌≢◌, ◌<◌, [], IfOk, Some, length};
ghost use Rattle.std.specs.List.{slice_get};
ghost use Rattle.back_scan.specs.Linked.{HasDeparture, PointsOn};
ghost use Rattle.back_scan.specs.Onward.{IsShown};
ghost use Rattle.back_scan.specs.RidesFrom.{GoesOnFrom};

use crate::trace::Departure;
use lc_model::{NoMemory, PlainData, Ride, RunKey, Stop};
use std::alloc::Global;

/// The departure from the stop. There is one.
fn departure_from(departures: &[Option<Departure>], stop: usize) -> Departure
    requires { HasDeparture departures.now stop }
    ensures { slice_get departures.now stop ≡ Some (Some result) }
{
    departures[stop].unwrap()
}

/// The ride by the departure from the stop.
fn ride_of(
    alloc: Global,
    stops: &[Stop],
    runs: &[RunKey],
    stop: usize,
    departure: &Departure,
) -> Result<Ride, NoMemory>
    requires board { stop < length stops.now }
    requires alight { departure.now.alighting.stop < length stops.now }
    requires run { departure.now.run < length runs.now }
    ensures { IfOk result (IsShown stops.now runs.now stop departure.now) }
{
    Ok(Ride {
        key: runs[departure.run].copy(alloc)?,
        first_seq: departure.seq,
        last_seq: departure.alighting.seq,
        board: stops[stop].id.copy(alloc)?,
        dep: departure.dep,
        alight: stops[departure.alighting.stop].id.copy(alloc)?,
        arr: departure.alighting.arr,
    })
}

/// The rides from the departure at the stop on: each departure names the stop of the next one.
pub fn rides_from(
    alloc: Global,
    stops: &[Stop],
    runs: &[RunKey],
    departures: &[Option<Departure>],
    stop: usize,
) -> Result<Vec<Ride>, NoMemory>
    requires points_on { PointsOn (length stops.now) (length runs.now) departures.now }
    requires first { HasDeparture departures.now stop }
    ensures rides { IfOk result (λ rides. GoesOnFrom stops.now runs.now departures.now (Some stop) rides.items) }
    ensures not_empty { IfOk result (λ rides. rides.items ≢ []) }
{
    let mut rides = Vec::new(alloc);
    let mut next = Some(stop);
    while let Some(at) = next {
        let departure = departure_from(departures, at);
        rides.push(ride_of(alloc, stops, runs, at, &departure)?)?;
        next = departure.alighting.next;
    }
    Ok(rides)
}
