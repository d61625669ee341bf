ghost use Rattle.std.specs.Prelude.{◌≡◌};
ghost use Rattle.gtfs_tables.specs.Steps.{end_of as said_end};
ghost use Rattle.gtfs_tables.specs.declared.end.End.TheVariants.{NoMemory as OutOfMemory};

use crate::FeedFile;
use crate::fields::FileFault;
use lc_model::NoMemory;

/// Why the files of a feed are read no further.
#[derive(Drop)]
pub(crate) enum End {
    /// A file is not as it has to be, this is what is wrong first with it, and this file is named.
    Wrong(FeedFile, FileFault),
    /// The directory failed to read a file.
    Failed,
    NoMemory,
}

impl From<NoMemory> for End {
    ghost from_gives = { λ _ end. end ≡ OutOfMemory };

    fn from(_: NoMemory) -> End {
        End::NoMemory
    }
}

/// The end at a file that has to be there and is absent, where this one is named.
pub(crate) fn absent(named: FeedFile) -> End
    ensures { result ≡ End.Wrong named (FileFault.Broken 1 0) }
{
    End::Wrong(named, FileFault::Broken { rule: 1, row: 0 })
}

/// The end at a fault of this file.
pub(crate) fn end_of(file: FeedFile, fault: FileFault) -> End
    ensures { result ≡ said_end file fault }
{
    match fault {
        FileFault::Broken { rule, row } => End::Wrong(file, FileFault::Broken { rule, row }),
        FileFault::TooMany { count } => End::Wrong(file, FileFault::TooMany { count }),
        FileFault::NoMemory => End::NoMemory,
    }
}
