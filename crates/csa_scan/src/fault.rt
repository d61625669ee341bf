ghost use Rattle.csa_scan.specs.declared.fault.BeginFault.TheVariants.{NoMemory as OutOfMemory};
ghost use Rattle.csa_scan.specs.Texts.{fault_text};
ghost use Rattle.std.specs.Prelude.{◌≡◌, Some};

use lc_model::NoMemory;
use std::error::Error;
use std::fmt;

/// Why no scan was begun.
#[derive(Clone, Copy, Debug, PartialEq, Eq)]
pub enum BeginFault {
    /// The stops lack the one where the question begins.
    UnknownFrom,
    /// The stops lack the one where the question ends.
    UnknownTo,
    /// There was not enough memory.
    NoMemory,
}

impl fmt::Display for BeginFault {
    ghost output = { λ fault. Some (fault_text fault) };

    fn fmt<W: fmt::Write>(&self, f: &mut fmt::Formatter<W>) -> fmt::Result {
        match self {
            BeginFault::UnknownFrom => write!(f, "unknown from"),
            BeginFault::UnknownTo => write!(f, "unknown to"),
            BeginFault::NoMemory => write!(f, "no memory"),
        }
    }
}

impl Error for BeginFault {}

impl From<NoMemory> for BeginFault {
    ghost from_gives = { λ _ fault. fault ≡ OutOfMemory };

    fn from(_: NoMemory) -> Self {
        BeginFault::NoMemory
    }
}
