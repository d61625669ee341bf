ghost use Rattle.std.specs.Prelude.{◌≡◌, ℕ, ◌+◌, ◌<◌, IfOk, Option, length};
ghost use Rattle.std.specs.Str.{IsUtf8};
ghost use Rattle.lc_time.specs.Date.{date_said};
ghost use Rattle.gtfs_tables.specs.Fields.Fields.{ReadsItem, ReadsRow, choice_said, id_said};

use crate::fields::FileFault;
use gtfs_rows::Rows;
use lc_model::{Id, NoMemory, ServiceDate};
use lc_time::read_date;
use std::alloc::Global;

/// The id that a field says: none where the field is empty.
pub fn id(alloc: Global, text: &[u8]) -> Result<Option<Id>, NoMemory>
    requires { IsUtf8 text.now }
    ensures { IfOk result (λ id. id ≡ id_said text.now) }
{
    Id::new(alloc, text)
}

/// Which of two words a field is: true where it is the first.
pub fn choice(text: &[u8], first: &[u8], second: &[u8]) -> Option<bool>
    ensures { result ≡ choice_said first.now second.now text.now }
{
    if text == first {
        return Some(true);
    }
    if text == second {
        return Some(false);
    }
    None
}

/// The date that a field says.
pub fn date(text: &[u8]) -> Option<ServiceDate>
    ensures { result ≡ date_said text.now }
{
    read_date(text)
}

/// What the row at this place says, counted from 0, or the rule that it breaks, reported with the row.
pub fn in_row<T>(rows: &Rows, place: usize, item: Result<T, u8>) -> Result<T, FileFault>
    requires { place < length rows.now.rows }
    ensures { (rule : Option ℕ) (said : Option T) → ReadsItem rule said item → ReadsRow rule said place result }
{
    // There are fewer rows than `usize` counts.
    let _count = rows.len();
    match item {
        Ok(item) => Ok(item),
        Err(rule) => Err(FileFault::Broken {
            rule,
            row: place as u64 + 1,
        }),
    }
}
