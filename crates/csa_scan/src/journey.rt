ghost use Rattle.std.specs.Prelude.{◌≡◌, ◌≢◌, ◌<◌, ◌≤◌, ℕ, [], IfOk, length};
ghost use Rattle.std.specs.List.{slice_get};
ghost use Rattle.csa_scan.specs.Linked.{IsArrivalIn};
ghost use Rattle.csa_scan.specs.Reach.{IsShown};
ghost use Rattle.csa_scan.specs.RidesTo.{AreRidesTo, PointsBack};

use crate::trace::Arrival;
use lc_model::{NoMemory, PlainData, Ride, RunKey, Stop};
use std::alloc::Global;

/// The ride that ends with the arrival.
fn ride_of(
    alloc: Global,
    stops: &[Stop],
    runs: &[RunKey],
    arrival: &Arrival,
) -> Result<Ride, NoMemory>
    requires stop { arrival.now.stop < length stops.now }
    requires board { arrival.now.boarding.stop < length stops.now }
    requires run { arrival.now.run < length runs.now }
    ensures { IfOk result (IsShown stops.now runs.now arrival.now) }
{
    Ok(Ride {
        key: runs[arrival.run].copy(alloc)?,
        first_seq: arrival.boarding.seq,
        last_seq: arrival.last_seq,
        board: stops[arrival.boarding.stop].id.copy(alloc)?,
        dep: arrival.boarding.dep,
        alight: stops[arrival.stop].id.copy(alloc)?,
        arr: arrival.arr,
    })
}

/// The rides up to the arrival at the place, from the first on: each arrival names the one before it.
pub fn rides_to(
    alloc: Global,
    stops: &[Stop],
    runs: &[RunKey],
    arrivals: &[Arrival],
    place: usize,
) -> Result<Vec<Ride>, NoMemory>
    requires points_back { PointsBack (length stops.now) (length runs.now) arrivals.now }
    requires within { place < length arrivals.now }
    ensures rides { IfOk result (λ rides. AreRidesTo stops.now runs.now arrivals.now place rides.items) }
    ensures not_empty { IfOk result (λ rides. rides.items ≢ []) }
{
    let mut rides = Vec::new(alloc);
    let mut after = Some(place);
    while let Some(at) = after {
        let arrival = &arrivals[at];
        rides.push(ride_of(alloc, stops, runs, arrival)?)?;
        after = arrival.boarding.after;
    }
    rides.reverse();
    Ok(rides)
}
