ghost use Rattle.std.specs.Prelude.{◌<◌};
ghost use Rattle.std.specs.Option.{ForSome};

use crate::{Id, NoMemory, PlainData, ServiceDate};
use std::alloc::Global;

/// What names a run: its trip, its service date and its start, where a headway repeats the trip. The start is in
/// seconds of the service day, below 360,000 (100 hours).
#[derive(PartialEq, Eq, PartialOrd, Ord, Drop)]
pub struct RunKey {
    pub trip: Id,
    pub date: ServiceDate,
    pub start: Option<u32>,
    pub ghost start_in_range: { ForSome start (λ seconds. seconds < 360_000) },
}

impl PlainData for RunKey {
    fn copy(&self, alloc: Global) -> Result<RunKey, NoMemory> {
        Ok(RunKey {
            trip: self.trip.copy(alloc)?,
            date: self.date,
            start: self.start,
        })
    }
}
