ghost use Rattle.std.specs.Prelude.{◌≡◌, Some};
ghost use Rattle.journey_text.specs.ScriptTexts.{fault_text};
ghost use Rattle.journey_text.specs.declared.script_fault.ScriptFault.TheVariants.{NoMemory as OutOfMemory};

use lc_model::NoMemory;
use std::alloc::AllocFailed;
use std::error::Error;
use std::fmt;

/// Why the bytes of a text are no script.
#[derive(Clone, Copy, Debug, PartialEq, Eq)]
pub enum ScriptFault {
    /// The first row, counted from 1, that is no record.
    Wrong { row: u64 },
    /// There was not enough memory.
    NoMemory,
}

impl fmt::Display for ScriptFault {
    ghost output = { λ fault. Some (fault_text fault) };

    fn fmt<W: fmt::Write>(&self, f: &mut fmt::Formatter<W>) -> fmt::Result {
        match self {
            ScriptFault::Wrong { row } => write!(f, "row {row} is no record"),
            ScriptFault::NoMemory => write!(f, "no memory"),
        }
    }
}

impl Error for ScriptFault {}

impl From<NoMemory> for ScriptFault {
    ghost from_gives = { λ _ fault. fault ≡ OutOfMemory };

    fn from(_: NoMemory) -> ScriptFault {
        ScriptFault::NoMemory
    }
}

impl<T: Drop> From<AllocFailed<T>> for ScriptFault {
    ghost from_gives = { λ _ fault. fault ≡ OutOfMemory };

    fn from(_: AllocFailed<T>) -> ScriptFault {
        ScriptFault::NoMemory
    }
}
