ghost use Rattle.std.specs.Prelude.{◌≡◌, ◌⊎◌, IfErr, IfOk};
ghost use Rattle.gtfs_rows.specs.Sheet.{IsTable, names_of};
ghost use Rattle.gtfs_tables.specs.Fields.AnyLength.{IsNoTable};

use crate::fields::FileFault;
use crate::fields::file_rows::fault_of;
use gtfs_rows::{Rows, table};
use std::alloc::Global;

/// The rows of a table with these columns, however many. Linear in the bytes.
pub fn table_rows(alloc: Global, bytes: &[u8], columns: &[&str]) -> Result<Rows, FileFault>
    ensures ok { IfOk result (IsTable bytes.now (names_of columns.now)) }
    ensures fault { IfErr result (λ fault. (fault ≡ FileFault.NoMemory) ⊎ IsNoTable (names_of columns.now) bytes.now fault) }
{
    match table(alloc, bytes, columns) {
        Ok(rows) => Ok(rows),
        Err(fault) => Err(fault_of(fault)),
    }
}
