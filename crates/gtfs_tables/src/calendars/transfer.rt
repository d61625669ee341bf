use lc_model::{Id, Items, NoMemory, PlainData};
use std::alloc::Global;

/// A row of transfers.txt: the way of changing from one stop or station to another (GTFS Schedule Reference,
/// transfers.txt).
#[derive(Drop)]
pub struct Transfer {
    pub from: Id,
    pub to: Id,
    /// `transfer_type`, and 0 where that is empty.
    pub kind: u32,
    /// `min_transfer_time`, where that is not empty.
    pub seconds: Option<u32>,
}

impl PlainData for Transfer {
    fn copy(&self, alloc: Global) -> Result<Transfer, NoMemory> {
        Ok(Transfer {
            from: self.from.copy(alloc)?,
            to: self.to.copy(alloc)?,
            kind: self.kind,
            seconds: self.seconds,
        })
    }
}

/// Rows of transfers.txt in the order of the file.
pub type Transfers = Items<Transfer>;
