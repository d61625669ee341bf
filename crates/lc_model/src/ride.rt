use crate::{Id, Items, Moment, NoMemory, PlainData, RunKey};
use std::alloc::Global;

/// A ride on one run, from the call of boarding to the call of alighting.
#[derive(PartialEq, Eq, Drop)]
pub struct Ride {
    pub key: RunKey,
    /// The sequence of the call of boarding.
    pub first_seq: u32,
    /// The sequence of the call before the call of alighting.
    pub last_seq: u32,
    pub board: Id,
    pub dep: Moment,
    pub alight: Id,
    pub arr: Moment,
}

impl PlainData for Ride {
    fn copy(&self, alloc: Global) -> Result<Ride, NoMemory> {
        Ok(Ride {
            key: self.key.copy(alloc)?,
            first_seq: self.first_seq,
            last_seq: self.last_seq,
            board: self.board.copy(alloc)?,
            dep: self.dep,
            alight: self.alight.copy(alloc)?,
            arr: self.arr,
        })
    }
}

/// Rides, one after the other.
pub type Rides = Items<Ride>;
