ghost use Rattle.std.specs.Prelude.{◌≡◌, ◌<◌, ◌≤◌, ◌⊎◌, IfErr, IfOk, length};
ghost use Rattle.gtfs_rows.specs.Sheet.{names_of};
ghost use Rattle.gtfs_tables.specs.Fields.Table.{IsSmallTable, IsFaultOf, IsTableFault};

use crate::fields::FileFault;
use gtfs_rows::{RowFault, Rows, table};
use std::alloc::Global;

/// The rows of a table with these columns, of at most so many rows. Linear in the bytes.
pub fn file_rows(
    alloc: Global,
    bytes: &[u8],
    columns: &[&str],
    most: usize,
) -> Result<Rows, FileFault>
    ensures ok { IfOk result (IsSmallTable (names_of columns.now) most bytes.now) }
    ensures fault { IfErr result (λ fault. (fault ≡ FileFault.NoMemory) ⊎ IsTableFault (names_of columns.now) most bytes.now fault) }
{
    match table(alloc, bytes, columns) {
        Ok(rows) => if_few(rows, most),
        Err(fault) => Err(fault_of(fault)),
    }
}

// The rows, if they are few enough; else how many there are.
fn if_few(rows: Rows, most: usize) -> Result<Rows, FileFault>
    ensures ok { IfOk result (λ same. (same ≡ rows) × (length rows.rows ≤ most)) }
    ensures many { IfErr result (λ fault. (fault ≡ FileFault.TooMany (length rows.rows)) × (most < length rows.rows)) }
{
    let count = rows.len();
    if count <= most {
        Ok(rows)
    } else {
        Err(FileFault::TooMany {
            count: count as u64,
        })
    }
}

pub(crate) fn fault_of(fault: RowFault) -> FileFault
    ensures { IsFaultOf fault result }
{
    match fault {
        RowFault::NotUtf8 => FileFault::Broken { rule: 2, row: 0 },
        RowFault::NoHeader => FileFault::Broken { rule: 3, row: 0 },
        RowFault::NoColumn { .. } => FileFault::Broken { rule: 4, row: 0 },
        RowFault::Ragged { row } => FileFault::Broken { rule: 5, row },
        RowFault::NoMemory => FileFault::NoMemory,
    }
}
