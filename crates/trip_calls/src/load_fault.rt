ghost use Rattle.std.specs.Prelude.{◌≡◌, Some};
ghost use Rattle.trip_calls.specs.Texts.{fault_text};
ghost use Rattle.trip_calls.specs.declared.load_fault.LoadFault.TheVariants.{NoMemory as OutOfMemory};

use lc_model::NoMemory;
use std::error::Error;
use std::fmt;

/// The most scheduled connections that the runs may have.
pub const MOST_CONNECTIONS: u64 = 4_000_000;

/// Why there is no list of runs.
#[derive(Clone, Copy, Debug, PartialEq, Eq)]
pub enum LoadFault {
    /// The runs have more connections than may be: so many.
    TooManyConnections { count: u64 },
    /// There was not enough memory.
    NoMemory,
}

impl fmt::Display for LoadFault {
    ghost output = { λ fault. Some (fault_text fault) };

    fn fmt<W: fmt::Write>(&self, f: &mut fmt::Formatter<W>) -> fmt::Result {
        match self {
            LoadFault::TooManyConnections { count } => {
                write!(f, "{count} connections are too many")
            }
            LoadFault::NoMemory => write!(f, "no memory"),
        }
    }
}

impl Error for LoadFault {}

impl From<NoMemory> for LoadFault {
    ghost from_gives = { λ _ fault. fault ≡ OutOfMemory };

    fn from(_: NoMemory) -> LoadFault {
        LoadFault::NoMemory
    }
}
