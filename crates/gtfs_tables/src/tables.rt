ghost use Rattle.std.specs.Prelude.{◌≡◌, IfOk};
ghost use Rattle.gtfs_tables.specs.Trips.Stops.{HaveKnownParents};

use crate::calendars::{Frequencies, Services, Transfers};
use crate::fields::TripRows;
use crate::trips::StopTimes;
use lc_model::{NoMemory, PlainData, Stops};
use std::alloc::Global;

/// The tables of a feed.
#[derive(Drop)]
pub struct Tables {
    pub stops: Stops,
    /// The trips that are not left out.
    pub trips: TripRows,
    /// The stop times of these trips.
    pub stop_times: StopTimes,
    /// When the services of the feed run.
    pub services: Services,
    pub frequencies: Frequencies,
    pub transfers: Transfers,
    /// How many trips are left out, since a row of theirs names no stop.
    pub left_out: u64,
    pub ghost parents_known: { ∥ HaveKnownParents stops ∥₁ },
}

impl PlainData for Tables {
    fn copy(&self, alloc: Global) -> Result<Tables, NoMemory> {
        let stops = self.stops.copy(alloc)?;
        let (trips, stop_times) = copied_rides(alloc, &self.trips, &self.stop_times)?;
        let services = self.services.copy(alloc)?;
        let (frequencies, transfers) = copied_ways(alloc, &self.frequencies, &self.transfers)?;
        Ok(Tables {
            stops,
            trips,
            stop_times,
            services,
            frequencies,
            transfers,
            left_out: self.left_out,
        })
    }
}

// Two lists at a time, so that a refusal has few others to drop.
fn copied_rides(
    alloc: Global,
    trips: &TripRows,
    stop_times: &StopTimes,
) -> Result<(TripRows, StopTimes), NoMemory>
    ensures trips { IfOk result (λ copy. copy.0 ≡ trips.now) }
    ensures stop_times { IfOk result (λ copy. copy.1 ≡ stop_times.now) }
{
    Ok((trips.copy(alloc)?, stop_times.copy(alloc)?))
}

fn copied_ways(
    alloc: Global,
    frequencies: &Frequencies,
    transfers: &Transfers,
) -> Result<(Frequencies, Transfers), NoMemory>
    ensures frequencies { IfOk result (λ copy. copy.0 ≡ frequencies.now) }
    ensures transfers { IfOk result (λ copy. copy.1 ≡ transfers.now) }
{
    Ok((frequencies.copy(alloc)?, transfers.copy(alloc)?))
}
