ghost use Rattle.std.specs.Prelude.{◌≢◌, []};

use crate::{NoMemory, PlainData, Rides, Walk};
use std::alloc::Global;

/// A journey: at least one ride, one after the other. A walk is before them where the first does not
/// board at an end of the question. One is after them where the last does not alight at one.
#[derive(Drop)]
pub struct Journey {
    pub before: Option<Walk>,
    pub rides: Rides,
    pub after: Option<Walk>,
    pub ghost not_empty: { rides ≢ [] },
}

impl PlainData for Journey {
    fn copy(&self, alloc: Global) -> Result<Journey, NoMemory> {
        Ok(Journey {
            before: self.before.copy(alloc)?,
            rides: self.rides.copy(alloc)?,
            after: self.after.copy(alloc)?,
        })
    }
}
