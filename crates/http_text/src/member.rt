use lc_model::{Items, NoMemory, PlainData, Text};
use std::alloc::Global;

/// A member of a query, decoded.
#[derive(Drop)]
pub struct Member {
    pub name: Text,
    pub value: Text,
}

impl PlainData for Member {
    fn copy(&self, alloc: Global) -> Result<Member, NoMemory> {
        Ok(Member {
            name: self.name.copy(alloc)?,
            value: self.value.copy(alloc)?,
        })
    }
}

/// The members of a query, in order.
pub type Members = Items<Member>;
