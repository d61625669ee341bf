use lc_model::{Items, NoMemory, PlainData, Query, Text};
use std::alloc::Global;

/// What a record of a script says.
#[derive(Drop)]
pub enum Record {
    /// A new client asks this. It gets the next number, from 1 on.
    Ask(Query),
    /// The message in the file of this name is admitted.
    Update(Text),
    /// One turn of the client with this number, for which an earlier record asked.
    Turn(u32),
}

impl PlainData for Record {
    fn copy(&self, alloc: Global) -> Result<Record, NoMemory> {
        match self {
            Record::Ask(query) => Ok(Record::Ask(query.copy(alloc)?)),
            Record::Update(name) => Ok(Record::Update(name.copy(alloc)?)),
            Record::Turn(client) => Ok(Record::Turn(*client)),
        }
    }
}

/// The records of a script, in its order.
pub type Script = Items<Record>;
