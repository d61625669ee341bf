ghost use Rattle.lc_model.specs.StopsDoc.{NamesItsStops};

use crate::{Changes, NoMemory, PlainData, Stops};
use std::alloc::Global;

/// What a client knows of the timetable's places: the stops and the changes between them.
///
/// Each parent of a stop and each end of a change is one of the stops.
#[derive(Drop)]
pub struct StopsDoc {
    pub stops: Stops,
    pub changes: Changes,
    pub ghost closed: { ∥ NamesItsStops stops changes ∥₁ },
}

impl PlainData for StopsDoc {
    fn copy(&self, alloc: Global) -> Result<StopsDoc, NoMemory> {
        Ok(StopsDoc {
            stops: self.stops.copy(alloc)?,
            changes: self.changes.copy(alloc)?,
        })
    }
}
