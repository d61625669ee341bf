//! Trips of 2024-05-01 over the stops A to D, made as the runs of added trips.
use super::news::news;
use crate::making::{MIDNIGHT, stops_of};
use lc_model::{Moment, Run, Stops, TripKind};
use live_calls::added_run;
use rows_common::Unmade;
use std::alloc::Global;

/// The second of the day of a moment.
pub(super) fn second(moment: Moment) -> u64 {
    moment.seconds().wrapping_sub(MIDNIGHT)
}

static STOPS: [&str; 4] = ["A", "B", "C", "D"];

/// The stops A to D.
pub(super) fn stops(alloc: Global) -> Result<Stops, Unmade> {
    stops_of(alloc, &STOPS)
}

/// The run of an added trip with the list of this name, if there is one.
pub(super) fn added(
    alloc: Global,
    stops: &Stops,
    trip: &str,
    name: &str,
) -> Result<Option<Run>, Unmade> {
    let news = news(alloc, trip, TripKind::Added, name)?;
    Ok(added_run(alloc, &news, stops)?)
}

/// That run where there is one.
pub(super) fn run(alloc: Global, stops: &Stops, trip: &str, name: &str) -> Result<Run, Unmade> {
    match added(alloc, stops, trip, name) {
        Ok(Some(run)) => Ok(run),
        Ok(None) => Err(Unmade),
        Err(Unmade) => Err(Unmade),
    }
}
