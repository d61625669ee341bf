use crate::{FeedFile, What};

/// Why a feed gave no tables.
#[derive(Clone, Copy, PartialEq, Eq)]
pub enum FeedFault {
    /// The first file that is not as it has to be, the first rule that it breaks, and the row that does, counted from
    /// 1. Row 0 is the whole file. Rule 1: the file is absent. The other rules are those of `fields`.
    Broken { rule: u8, file: FeedFile, row: u64 },
    /// The first file that is not as it has to be has so many rows, which are more than are read.
    TooLarge { what: What, count: u64 },
    /// The directory failed to read a file. Its count of faults was `before` as the call began, and is `after`.
    Folder { before: u64, after: u64 },
    /// There was not enough memory.
    NoMemory,
}
