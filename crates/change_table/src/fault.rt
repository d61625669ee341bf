ghost use Rattle.std.specs.Prelude.{◌≡◌, Some};
ghost use Rattle.change_table.specs.Texts.{fault_text};
ghost use Rattle.change_table.specs.declared.fault.ChangeFault.TheVariants.{NoMemory as OutOfMemory};

use lc_model::NoMemory;
use std::alloc::{AllocError, AllocFailed};
use std::error::Error;
use std::fmt;

/// The most ordered pairs of stops that may have a change.
pub const MOST_CHANGES: usize = 1_000_000;

/// Why there is no list of changes.
#[derive(Clone, Copy, Debug, PartialEq, Eq)]
pub enum ChangeFault {
    /// There are more changes than may be. The count is that of the first one that is too many.
    TooManyChanges { count: u64 },
    /// There was not enough memory.
    NoMemory,
}

impl fmt::Display for ChangeFault {
    ghost output = { λ fault. Some (fault_text fault) };

    fn fmt<W: fmt::Write>(&self, f: &mut fmt::Formatter<W>) -> fmt::Result {
        match self {
            ChangeFault::TooManyChanges { count } => write!(f, "{count} changes are too many"),
            ChangeFault::NoMemory => write!(f, "no memory"),
        }
    }
}

impl Error for ChangeFault {}

impl From<NoMemory> for ChangeFault {
    ghost from_gives = { λ _ fault. fault ≡ OutOfMemory };

    fn from(_: NoMemory) -> ChangeFault {
        ChangeFault::NoMemory
    }
}

impl<T: Drop> From<AllocFailed<T>> for ChangeFault {
    ghost from_gives = { λ _ fault. fault ≡ OutOfMemory };

    fn from(_: AllocFailed<T>) -> ChangeFault {
        ChangeFault::NoMemory
    }
}
