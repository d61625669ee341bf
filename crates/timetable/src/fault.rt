ghost use Rattle.std.specs.Prelude.{◌≡◌};
ghost use Rattle.timetable.specs.declared.fault.LoadFault.TheVariants.{NoMemory as OutOfMemory};

use gtfs_tables::What;
use lc_model::{NoMemory, Text};

/// Why there is no timetable.
#[derive(Drop)]
pub enum LoadFault {
    /// The first rule that is broken, the file, and the row that breaks it, counted from 1; row 0 is the whole file. By rule 15
    /// the word says no zone, and takes the place of the file.
    Broken { rule: u8, file: Text, row: u64 },
    /// There is more of something than is taken: so much of it.
    TooLarge { what: What, count: u64 },
    /// The directory failed to read a file. Its count of faults was `before` as the call began, and is `after`.
    Folder { before: u64, after: u64 },
    /// There was not enough memory.
    NoMemory,
}

impl From<NoMemory> for LoadFault {
    ghost from_gives = { λ _ fault. fault ≡ OutOfMemory };

    fn from(_: NoMemory) -> LoadFault {
        LoadFault::NoMemory
    }
}
