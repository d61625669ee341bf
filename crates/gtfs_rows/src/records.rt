ghost use Rattle.std.specs.Prelude.{◌≡◌, ◌+◌, ◌<◌, ◌^◌, ◌++◌, [], ◌∷◌, IfNone, IfOk, OnOk, Some, false, length, map, option_map, slice_index, slice_index_or, true};
ghost use Rattle.csv.specs.Reading.{ReadRecord};
ghost use Rattle.csv.specs.Records.{Rising, fields_of, partial_of, prev};
ghost use Rattle.gtfs_rows.specs.Reading.{IsPlain};
ghost use Rattle.gtfs_rows.specs.Sheet.{AreTrimmedRecordsOf, column_of, missing_column, names_of, ragged_row};
ghost use Rattle.gtfs_rows.specs.Spaces as spec;
ghost use Rattle.gtfs_rows.specs.Store.{IsEven, cut_records, sheet_of};

use crate::reading::read_next;
use crate::spaces::without_spaces;
use crate::unquoted::{fill_unquoted, without_mark};
use csv::{ByteRecord, Reader, ReaderBuilder};
use lc_model::NoMemory;
use std::alloc::Global;
use std::marker::Model;

/// The records of a CSV text, each with any number of fields, one after the other in one list. A contract sees the
/// list of the records.
#[derive(Drop)]
pub struct Records {
    fields: ByteRecord,
    // How many fields there are up to the end of each record.
    ends: Vec<usize>,
}

impl Model for Records {
    ghost use Rattle.std.specs.Prelude.{ℕ, List, length};
    ghost use Rattle.csv.specs.Records.{Rising, fields_of};
    ghost use Rattle.gtfs_rows.specs.Store.{cut_records};

    ghost Value = { List (List (List ℕ)) };

    ghost view = { λ r. cut_records 0 r.ends.items (fields_of r.fields) };

    ghost invariant = { λ r. Rising 0 r.ends.items (length (fields_of r.fields)) };
}

impl Records {
    /// The records of a CSV text, without the spaces at both ends of each field. Linear in the bytes.
    pub fn read(alloc: Global, bytes: &[u8]) -> Result<Records, NoMemory>
        ensures { IfOk result (AreTrimmedRecordsOf bytes.now) }
    {
        // The fields have at most as many bytes as the text.
        let mut fields = ByteRecord::with_capacity(alloc, bytes.len(), 0)?;
        let mut ends = Vec::new(alloc);
        fill_records(alloc, bytes, &mut fields, &mut ends)?;
        Ok(Records { fields, ends })
    }

    /// How many records there are.
    pub fn len(&self) -> usize
        ensures { result ≡ length self.now }
    {
        self.ends.len()
    }

    /// How many fields the record at this place has.
    pub fn width(&self, place: usize) -> usize
        requires { place < length self.now }
        ensures { result ≡ length (slice_index_or self.now place []) }
    {
        let (start, end) = bounds(self.ends.as_slice(), place);
        end - start
    }

    /// The field at this place of the record at that place.
    pub fn field(&self, place: usize, column: usize) -> &[u8]
        requires record_there { place < length self.now }
        requires field_there { column < length (slice_index_or self.now place []) }
        ensures { result.now ≡ slice_index_or (slice_index_or self.now place []) column [] }
    {
        let (start, _) = bounds(self.ends.as_slice(), place);
        nth(&self.fields, start + column)
    }

    /// The place, from 0, of the first column with this name.
    pub(crate) fn column(&self, name: &str) -> Option<usize>
        requires { 0 < length self.now }
        ensures { result ≡ column_of (sheet_of self.now) name.now }
    {
        'columns: for column in 0..self.width(0) {
            if self.field(0, column) == name.as_bytes() {
                return Some(column);
            }
        }
        None
    }

    /// The first of these columns that is missing.
    pub(crate) fn missing<'a>(&self, columns: &[&'a str]) -> Option<&'a str>
        requires { 0 < length self.now }
        ensures { option_map (λ name. name.now) result ≡ missing_column (sheet_of self.now) (names_of columns.now) }
    {
        'columns: for name in columns {
            if self.column(name).is_none() {
                return Some(*name);
            }
        }
        None
    }

    /// The first row, counted from 1, that has another number of fields than the header.
    pub(crate) fn ragged(&self) -> Option<usize>
        requires { 0 < length self.now }
        ensures row { result ≡ ragged_row (sheet_of self.now) }
        ensures even { IfNone result (IsEven self.now) }
    {
        let width = self.width(0);
        'rows: for row in 1..self.len() {
            if self.width(row) != width {
                return Some(row);
            }
        }
        None
    }
}

// Adds the fields of all records of a CSV text, without the spaces at their ends, and where each record ends. Most texts
// quote no field, and need no reader that copies each record.
fn fill_records(
    alloc: Global,
    bytes: &[u8],
    fields: &mut ByteRecord,
    ends: &mut Vec<usize>,
) -> Result<(), NoMemory>
    requires empty { fields_of fields.old ≡ [] }
    requires partial { partial_of fields.old ≡ [] }
    requires none { ends.old.items ≡ [] }
    ensures records { OnOk result (AreTrimmedRecordsOf bytes.now (cut_records 0 ends.new.items (fields_of fields.new))) }
    ensures rising { OnOk result (Rising 0 ends.new.items (length (fields_of fields.new))) }
{
    if fill_unquoted(without_mark(bytes), fields, ends)? {
        return Ok(());
    }
    fields.clear();
    ends.clear();
    fill(alloc, bytes, fields, ends)
}

// Adds them by the reader of `csv`, which takes quoted fields too.
fn fill(
    alloc: Global,
    bytes: &[u8],
    fields: &mut ByteRecord,
    ends: &mut Vec<usize>,
) -> Result<(), NoMemory>
    requires empty { fields_of fields.old ≡ [] }
    requires partial { partial_of fields.old ≡ [] }
    requires none { ends.old.items ≡ [] }
    ensures records { OnOk result (AreTrimmedRecordsOf bytes.now (cut_records 0 ends.new.items (fields_of fields.new))) }
    ensures rising { OnOk result (Rising 0 ends.new.items (length (fields_of fields.new))) }
{
    let mut reader = ReaderBuilder::new()
        .has_headers(false)
        .flexible(true)
        .from_reader(alloc, bytes);
    let mut row = ByteRecord::new(alloc);
    'records: while add_next(&mut reader, &mut row, fields, ends)? {}
    Ok(())
}

// Where the record at this place starts and ends.
fn bounds(ends: &[usize], place: usize) -> (usize, usize)
    requires { place < length ends.now }
    ensures start { result.0 ≡ prev 0 ends.now place }
    ensures end { result.1 ≡ slice_index ends.now place }
    ensures in_range { result.1 < 2 ^ 64 }
{
    let start = if place == 0 { 0 } else { ends[place - 1] };
    (start, ends[place])
}

// Whether there is a next record. It is read into `row`, and its fields are added, without the spaces at their ends, and
// where they end.
fn add_next(
    reader: &mut Reader<&[u8]>,
    row: &mut ByteRecord,
    fields: &mut ByteRecord,
    ends: &mut Vec<usize>,
) -> Result<bool, NoMemory>
    requires plain { IsPlain reader.old }
    requires partial { partial_of fields.old ≡ [] }
    ensures reads { IfOk result (λ found. ReadRecord (λ text. Some text.now) reader.old reader.new found (fields_of row.new)) }
    ensures plain { IfOk result (λ found. found ≡ true → IsPlain reader.new) }
    ensures fields { IfOk result (λ found. found ≡ true → fields_of fields.new ≡ fields_of fields.old ++ map spec.without_spaces (fields_of row.new)) }
    ensures partial { IfOk result (λ found. found ≡ true → partial_of fields.new ≡ []) }
    ensures ends { IfOk result (λ found. found ≡ true → ends.new.items ≡ ends.old.items ++ length (fields_of fields.new) ∷ []) }
    ensures same_fields { IfOk result (λ found. found ≡ false → fields.new ≡ fields.old) }
    ensures same_ends { IfOk result (λ found. found ≡ false → ends.new ≡ ends.old) }
{
    if !read_next(reader, row)? {
        return Ok(false);
    }
    push_trimmed(fields, row)?;
    ends.push(fields.len())?;
    Ok(true)
}

// Adds the fields of a record, without the spaces at their ends.
fn push_trimmed(fields: &mut ByteRecord, row: &ByteRecord) -> Result<(), NoMemory>
    requires { partial_of fields.old ≡ [] }
    ensures fields { OnOk result (fields_of fields.new ≡ fields_of fields.old ++ map spec.without_spaces (fields_of row.now)) }
    ensures partial { OnOk result (partial_of fields.new ≡ []) }
{
    'fields: for place in 0..row.len() {
        fields.push_field(without_spaces(nth(row, place)))?;
    }
    Ok(())
}

// The field at this place.
fn nth(fields: &ByteRecord, place: usize) -> &[u8]
    requires { place < length (fields_of fields.now) }
    ensures { result.now ≡ slice_index_or (fields_of fields.now) place [] }
{
    match fields.get(place) {
        Some(field) => field,
        None => &[],
    }
}
