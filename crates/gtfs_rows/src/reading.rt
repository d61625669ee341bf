ghost use Rattle.std.specs.Prelude.{◌≡◌, IfOk, Some, true};
ghost use Rattle.csv.specs.Reading.{ReadRecord, error_kind, stops_reader};
ghost use Rattle.csv.specs.Records.{fields_of};
ghost use Rattle.gtfs_rows.specs.Reading.{IsPlain};

use csv::{ByteRecord, Error, Reader};
use lc_model::NoMemory;

/// Reads the next record into `row`, or says that there is none.
pub(crate) fn read_next(reader: &mut Reader<&[u8]>, row: &mut ByteRecord) -> Result<bool, NoMemory>
    requires { IsPlain reader.old }
    ensures reads { IfOk result (λ found. ReadRecord (λ text. Some text.now) reader.old reader.new found (fields_of row.new)) }
    ensures plain { IfOk result (λ found. found ≡ true → IsPlain reader.new) }
{
    match reader.read_byte_record(row) {
        Ok(found) => Ok(found),
        Err(e) => Err(want_of_memory(e)),
    }
}

// The contract of `csv` leaves open that reading from a slice fails as a file may. It does not, so that counts as want
// of memory.
fn want_of_memory(error: Error) -> NoMemory
    requires { stops_reader (error_kind error) ≡ true }
{
    let _ = error;
    NoMemory
}
