use crate::versions::EntityList;
use crate::{Moment, NoMemory, PlainData};
use std::alloc::Global;

/// What a message of GTFS Realtime says: its moment, whether it is the full state or what changed, and its entities. How many
/// trip updates were passed over.
#[derive(Drop)]
pub struct Update {
    pub moment: Moment,
    pub full: bool,
    pub entities: EntityList,
    pub passed: u32,
}

impl PlainData for Update {
    fn copy(&self, alloc: Global) -> Result<Update, NoMemory> {
        Ok(Update {
            moment: self.moment,
            full: self.full,
            entities: self.entities.copy(alloc)?,
            passed: self.passed,
        })
    }
}
