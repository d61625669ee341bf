ghost use Rattle.std.specs.Prelude.{◌≡◌, ◌<◌, IfOk};
ghost use Rattle.csa_scan.specs.Near.{inner_of, outer_of, walk_of};

use lc_model::{Change, Id, NoMemory, PlainData, Walk};
use std::alloc::Global;

/// On which side of the rides a walk is made. Its outer stop is an end of the question, its inner one that of a ride.
#[derive(Clone, Copy)]
pub enum Side {
    Before,
    After,
}

impl Side {
    pub fn outer(self, change: &Change) -> &Id
        ensures { result.now ≡ outer_of self change.now }
    {
        match self {
            Side::Before => &change.from,
            Side::After => &change.to,
        }
    }

    pub fn inner(self, change: &Change) -> &Id
        ensures { result.now ≡ inner_of self change.now }
    {
        match self {
            Side::Before => &change.to,
            Side::After => &change.from,
        }
    }

    pub fn walk(self, alloc: Global, inner: &Id, outer: &Id, seconds: u32) -> Result<Walk, NoMemory>
        ensures { IfOk result (λ walk. walk ≡ walk_of self inner.now outer.now seconds) }
    {
        let inner = inner.copy(alloc)?;
        let outer = outer.copy(alloc)?;
        let (from, to) = match self {
            Side::Before => (outer, inner),
            Side::After => (inner, outer),
        };
        Ok(Walk { from, to, seconds })
    }
}
