use lc_model::{Bytes, Items, NoMemory, PlainData};
use std::alloc::Global;

/// A field of a head. The value is without the blanks around it.
#[derive(Drop)]
pub struct Field {
    pub name: Bytes,
    pub value: Bytes,
}

impl PlainData for Field {
    fn copy(&self, alloc: Global) -> Result<Field, NoMemory> {
        Ok(Field {
            name: self.name.copy(alloc)?,
            value: self.value.copy(alloc)?,
        })
    }
}

/// The fields of a head, in order.
pub type Fields = Items<Field>;
