ghost use Rattle.std.specs.Prelude.{◌≡◌, Some};
ghost use Rattle.gtfs_rows.specs.Texts.{fault_text};
ghost use Rattle.gtfs_rows.specs.declared.fault.RowFault.TheVariants.{NoMemory as OutOfMemory};

use lc_model::{NoMemory, PlainData, Text};
use std::alloc::{AllocError, Global};
use std::error::Error;
use std::fmt;

/// Why the bytes of a file are no table with the columns that are asked for.
#[derive(Drop)]
pub enum RowFault {
    /// The bytes are not UTF-8.
    NotUtf8,
    /// There is no header record.
    NoHeader,
    /// There is no column of this name; of several that are missing, the first that was asked for.
    NoColumn { name: Text },
    /// This row, counted from 1, has another number of fields than the header; of several such rows, the first.
    Ragged { row: u64 },
    /// There was not enough memory.
    NoMemory,
}

impl PlainData for RowFault {
    fn copy(&self, alloc: Global) -> Result<RowFault, NoMemory> {
        Ok(match self {
            RowFault::NotUtf8 => RowFault::NotUtf8,
            RowFault::NoHeader => RowFault::NoHeader,
            RowFault::NoColumn { name } => RowFault::NoColumn {
                name: name.copy(alloc)?,
            },
            RowFault::Ragged { row } => RowFault::Ragged { row: *row },
            RowFault::NoMemory => RowFault::NoMemory,
        })
    }
}

impl fmt::Display for RowFault {
    ghost output = { λ fault. Some (fault_text fault) };

    fn fmt<W: fmt::Write>(&self, f: &mut fmt::Formatter<W>) -> fmt::Result {
        match self {
            RowFault::NotUtf8 => write!(f, "not UTF-8"),
            RowFault::NoHeader => write!(f, "no header"),
            RowFault::NoColumn { name } => write!(f, "no column {}", name.as_str()),
            RowFault::Ragged { row } => write!(f, "row {row} is ragged"),
            RowFault::NoMemory => write!(f, "no memory"),
        }
    }
}

/// As it is printed.
impl fmt::Debug for RowFault {
    fn fmt<W: fmt::Write>(&self, f: &mut fmt::Formatter<W>) -> fmt::Result {
        fmt::Display::fmt(self, f)
    }
}

impl Error for RowFault {}

impl From<NoMemory> for RowFault {
    ghost from_gives = { λ _ fault. fault ≡ OutOfMemory };

    fn from(_: NoMemory) -> RowFault {
        RowFault::NoMemory
    }
}

impl From<AllocError> for RowFault {
    ghost from_gives = { λ _ fault. fault ≡ OutOfMemory };

    fn from(_: AllocError) -> RowFault {
        RowFault::NoMemory
    }
}
