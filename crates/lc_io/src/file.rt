use lc_model::{Bytes, NoMemory, PlainData, Text};
use std::alloc::Global;

/// A file in memory.
#[derive(Drop)]
pub struct File {
    pub name: Text,
    pub bytes: Bytes,
}

impl PlainData for File {
    fn copy(&self, alloc: Global) -> Result<File, NoMemory> {
        Ok(File {
            name: self.name.copy(alloc)?,
            bytes: self.bytes.copy(alloc)?,
        })
    }
}
