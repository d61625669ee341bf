ghost use Rattle.fragmenter.specs.Cutting.{chosen_cuts};

use crate::{ByCount, BySpan, Fragmenter, Whole};
use lc_model::{Moment, NoMemory};
use std::alloc::Global;

/// One of the ways to cut.
#[derive(Clone, Copy, PartialEq, Eq)]
pub enum Cutting {
    Span(BySpan),
    Count(ByCount),
    Whole,
}

impl Fragmenter for Cutting {
    ghost cuts_of = { chosen_cuts };

    fn cuts(&self, alloc: Global, departures: &[Moment]) -> Result<Vec<Moment>, NoMemory> {
        match self {
            Cutting::Span(way) => way.cuts(alloc, departures),
            Cutting::Count(way) => way.cuts(alloc, departures),
            Cutting::Whole => Whole.cuts(alloc, departures),
        }
    }

    fn cuts_lawfully(&self) {}
}
