ghost use Rattle.std.specs.Prelude.{◌≤◌};

use crate::{Id, NoMemory, PlainData};
use std::alloc::Global;

/// A change between two stops, or at one stop, and the seconds that it takes, at least one
/// (GTFS Schedule Reference, transfers.txt).
#[derive(PartialEq, Eq, Drop)]
pub struct Change {
    pub from: Id,
    pub to: Id,
    pub seconds: u32,
    pub ghost takes_time: { 1 ≤ seconds },
}

impl PlainData for Change {
    fn copy(&self, alloc: Global) -> Result<Change, NoMemory> {
        Ok(Change {
            from: self.from.copy(alloc)?,
            to: self.to.copy(alloc)?,
            seconds: self.seconds,
        })
    }
}
