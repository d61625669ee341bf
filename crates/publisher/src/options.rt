use connection_uri::Base;
use lc_model::{NoMemory, PlainData};
use std::alloc::Global;

/// How a publisher publishes: under which base, and whether it takes messages.
#[derive(Drop)]
pub struct Options {
    pub base: Base,
    pub accept_updates: bool,
}

impl PlainData for Options {
    fn copy(&self, alloc: Global) -> Result<Options, NoMemory> {
        Ok(Options {
            base: self.base.copy(alloc)?,
            accept_updates: self.accept_updates,
        })
    }
}
