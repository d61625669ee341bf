use crate::{Id, NoMemory, PlainData};
use std::alloc::Global;

/// A walk at an end of a journey, by the change between two stops.
#[derive(PartialEq, Eq, Drop)]
pub struct Walk {
    pub from: Id,
    pub to: Id,
    pub seconds: u32,
}

impl PlainData for Walk {
    fn copy(&self, alloc: Global) -> Result<Walk, NoMemory> {
        Ok(Walk {
            from: self.from.copy(alloc)?,
            to: self.to.copy(alloc)?,
            seconds: self.seconds,
        })
    }
}
