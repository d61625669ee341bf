ghost use Rattle.fragmenter.specs.Ways.{whole_cuts};

use crate::Fragmenter;
use lc_model::{Moment, NoMemory};
use std::alloc::Global;

/// Cuts at the first departure alone: one page for all.
#[derive(Clone, Copy, PartialEq, Eq)]
pub struct Whole;

impl Fragmenter for Whole {
    ghost cuts_of = { λ way departures. whole_cuts departures };

    fn cuts(&self, alloc: Global, departures: &[Moment]) -> Result<Vec<Moment>, NoMemory> {
        let mut cuts = Vec::new(alloc);
        if let Some(first) = departures.first() {
            cuts.push(*first)?;
        }
        Ok(cuts)
    }

    fn cuts_lawfully(&self) {}
}
