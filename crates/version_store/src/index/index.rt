ghost use Rattle.std.specs.Prelude.{◌≡◌};

use crate::index::spans::Spans;
use std::marker::Model;

/// The runs of all versions, which are numbered from 0. A contract sees the runs of each version, and the number of the newest one.
/// A run that changes from a version to the next ends there, and its new state begins.
#[derive(Drop)]
pub struct Index {
    pub(crate) spans: Spans,
    pub(crate) newest: u32,
}

impl Model for Index {
    ghost use Rattle.version_store.specs.Index.Spans.{Indexed};

    ghost Value = { Indexed };

    ghost use Rattle.version_store.specs.Index.Inside.{IsKept, indexed_of};

    ghost view = { indexed_of };

    ghost invariant = { IsKept };
}

impl Index {
    /// The number of the newest version.
    pub fn newest(&self) -> u32
        ensures { result ≡ self.now.newest }
    {
        self.newest
    }
}
