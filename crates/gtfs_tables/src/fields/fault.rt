ghost use Rattle.std.specs.Prelude.{◌≡◌, Some};
ghost use Rattle.gtfs_tables.specs.Fields.Texts.{fault_text};
ghost use Rattle.gtfs_tables.specs.declared.fields.fault.FileFault.TheVariants.{NoMemory as OutOfMemory};

use lc_model::NoMemory;
use std::alloc::{AllocError, AllocFailed};
use std::error::Error;
use std::fmt;

/// Why the bytes of a file say no rows.
#[derive(Debug, Drop)]
pub enum FileFault {
    /// The first rule that is broken, and the row that breaks it, counted from 1; row 0 is the whole file. 2: the bytes
    /// are not UTF-8. 3: there is no header. 4: a column is missing. 5: a row has another number of fields than the
    /// header. 6: an id is empty. 7: an id is there a second time. 8: a stop is not known. 9: a trip is not known. 10: a
    /// parent station is not known. 11: a number is unreadable. 12: a time or a date is unreadable. 13: the first or last
    /// row of a trip has neither time. 14: a time is earlier than the one before.
    Broken { rule: u8, row: u64 },
    /// There are more rows than are read: so many in the whole file.
    TooMany { count: u64 },
    /// There was not enough memory.
    NoMemory,
}

impl fmt::Display for FileFault {
    ghost output = { λ fault. Some (fault_text fault) };

    fn fmt<W: fmt::Write>(&self, f: &mut fmt::Formatter<W>) -> fmt::Result {
        match self {
            FileFault::Broken { rule, row } => write!(f, "rule {rule} in row {row}"),
            FileFault::TooMany { count } => write!(f, "too many rows: {count}"),
            FileFault::NoMemory => write!(f, "no memory"),
        }
    }
}

impl Error for FileFault {}

impl From<NoMemory> for FileFault {
    ghost from_gives = { λ _ fault. fault ≡ OutOfMemory };

    fn from(_: NoMemory) -> FileFault {
        FileFault::NoMemory
    }
}

impl From<AllocError> for FileFault {
    ghost from_gives = { λ _ fault. fault ≡ OutOfMemory };

    fn from(_: AllocError) -> FileFault {
        FileFault::NoMemory
    }
}

impl<T: Drop> From<AllocFailed<T>> for FileFault {
    ghost from_gives = { λ _ fault. fault ≡ OutOfMemory };

    fn from(_: AllocFailed<T>) -> FileFault {
        FileFault::NoMemory
    }
}
