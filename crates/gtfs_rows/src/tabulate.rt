ghost use Rattle.std.specs.Prelude.{◌≡◌, ◌⊎◌, ◌↔◌, ℕ, Err, IfErr, IfOk, IsOkUnless, IsTrue, List, OnOk};
ghost use Rattle.std.specs.Str.{IsUtf8};
ghost use Rattle.gtfs_rows.specs.Fault.{Breaks};
ghost use Rattle.gtfs_rows.specs.Sheet.{AreTrimmedRecordsOf, IsSheetOf, IsTable, Sheet, names_of};
ghost use Rattle.gtfs_rows.specs.Store.{IsEven, sheet_of};
ghost use Rattle.gtfs_rows.specs.declared.fault.RowFault.{RowFault};

use crate::fault::RowFault;
use crate::records::Records;
use crate::rows::Rows;
use lc_model::Text;
use std::alloc::Global;
use std::str;

/// The rows of a CSV text, which has at least these columns. Linear in the bytes.
///
/// The text is UTF-8, with or without a byte-order mark at its start. Its first record is the header. Of two columns
/// with one name the first counts. The faults are tested in the order in which [`RowFault`] lists them.
pub fn table(alloc: Global, bytes: &[u8], columns: &[&str]) -> Result<Rows, RowFault>
    ensures ok { IfOk result (IsTable bytes.now (names_of columns.now)) }
    ensures fault { IfErr result (λ fault. (fault ≡ RowFault.NoMemory) ⊎ Breaks bytes.now (names_of columns.now) fault) }

    // Where the bytes are a table there is no fault but running out of memory, and where they break a rule there is no other.
    ensures table { (sheet : Sheet) → IsTable bytes.now (names_of columns.now) sheet → IsOkUnless result RowFault.NoMemory }
    ensures only { (fault : RowFault) → Breaks bytes.now (names_of columns.now) fault → (result ≡ Err fault) ⊎ (result ≡ Err RowFault.NoMemory) }

    // No other reading of the bytes gives another sheet.
    ensures same { IfOk result (λ rows. (sheet : Sheet) → IsSheetOf bytes.now sheet → sheet ≡ rows) }
{
    if !is_utf8(bytes) {
        return Err(RowFault::NotUtf8);
    }
    let records = Records::read(alloc, bytes)?;
    match check_records(alloc, &records, columns) {
        Ok(()) => Ok(Rows::from_records(records)),
        Err(fault) => Err(fault),
    }
}

// Whether the records are a table with these columns; else the first fault that shows in them. The text that they were read
// from is UTF-8.
fn check_records(alloc: Global, records: &Records, columns: &[&str]) -> Result<(), RowFault>
    ensures table { OnOk result ((bytes : List ℕ) → IsUtf8 bytes → AreTrimmedRecordsOf bytes records.now
        → IsTable bytes (names_of columns.now) (sheet_of records.now)) }
    ensures even { OnOk result (IsEven records.now) }
    ensures fault { IfErr result (λ fault. (fault ≡ RowFault.NoMemory) ⊎ ((bytes : List ℕ) → IsUtf8 bytes → AreTrimmedRecordsOf bytes records.now
        → Breaks bytes (names_of columns.now) fault)) }
{
    if records.len() == 0 {
        return Err(RowFault::NoHeader);
    }
    if let Some(name) = records.missing(columns) {
        let name = Text::from_string(String::from_str(alloc, name)?);
        return Err(RowFault::NoColumn { name });
    }
    if let Some(row) = records.ragged() {
        return Err(RowFault::Ragged { row: row as u64 });
    }
    Ok(())
}

fn is_utf8(bytes: &[u8]) -> bool
    ensures { IsTrue result ↔ IsUtf8 bytes.now }
{
    str::from_utf8(bytes).is_ok()
}
