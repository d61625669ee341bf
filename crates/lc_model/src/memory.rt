ghost use Rattle.std.specs.Prelude.{◌≡◌, Some, IfOk, codes};

use std::alloc::{AllocError, AllocFailed, Global};
use std::error::Error;
use std::fmt;

/// There was not enough memory for the call.
#[derive(Clone, Copy, Debug, PartialEq, Eq)]
pub struct NoMemory;

impl fmt::Display for NoMemory {
    ghost output = { λ _. Some (codes "no memory") };

    fn fmt<W: fmt::Write>(&self, f: &mut fmt::Formatter<W>) -> fmt::Result {
        write!(f, "no memory")
    }
}

impl Error for NoMemory {}

impl From<AllocError> for NoMemory {
    fn from(_: AllocError) -> Self {
        NoMemory
    }
}

impl<T: Drop> From<AllocFailed<T>> for NoMemory {
    fn from(_: AllocFailed<T>) -> Self {
        NoMemory
    }
}

/// Plain data that owns memory, of which an equal value can be made.
pub trait PlainData: Drop {
    fn copy(&self, alloc: Global) -> Result<Self, NoMemory>
        ensures { IfOk result (λ copy. copy ≡ self.now) };
}

impl<T: PlainData> PlainData for Option<T> {
    fn copy(&self, alloc: Global) -> Result<Option<T>, NoMemory> {
        match self {
            None => Ok(None),
            Some(item) => Ok(Some(item.copy(alloc)?)),
        }
    }
}

/// A list with a copy of each item, in order.
pub fn copy_each<T: PlainData>(alloc: Global, items: &[T]) -> Result<Vec<T>, NoMemory>
    ensures { IfOk result (λ list. list.items ≡ items.now) }
{
    let mut list = Vec::with_capacity(alloc, items.len())?;
    for item in items {
        list.push(item.copy(alloc)?)?;
    }
    Ok(list)
}
