use lc_model::{Moment, NoMemory, PlainData, Text};
use std::alloc::Global;

/// What a reply says. The body is from `body_from` up to `body_to` in its bytes.
#[derive(Drop)]
pub struct Reply {
    pub status: u16,
    /// The URL of the Location field, or none where it is missing or no UTF-8.
    pub location: Option<Text>,
    /// The date of the Memento-Datetime field, or none where it is missing or no date.
    pub memento: Option<Moment>,
    pub body_from: usize,
    pub body_to: usize,
}

impl PlainData for Reply {
    fn copy(&self, alloc: Global) -> Result<Reply, NoMemory> {
        Ok(Reply {
            status: self.status,
            location: self.location.copy(alloc)?,
            memento: self.memento,
            body_from: self.body_from,
            body_to: self.body_to,
        })
    }
}
