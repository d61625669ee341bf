ghost use Rattle.std.specs.Prelude.{◌≡◌, ◌<◌, ◌≤◌, ◌-◌, ◌==◌, [], IfOk, IfSome, drop, length, slice_index, take, true, false};
ghost use Rattle.csv.specs.Machine.{Runs};
ghost use Rattle.csv.specs.Reading.{default_config, is_bom, strip_bom};
ghost use Rattle.csv.specs.Records.{Rising, fields_of, partial_of};
ghost use Rattle.csv.specs.declared.parser.State.TheVariants as st;
ghost use Rattle.gtfs_rows.specs.Store.{cut_records};
ghost use Rattle.gtfs_rows.specs.Unquoted as spec;

use crate::spaces::without_spaces;
use csv::ByteRecord;
use lc_model::NoMemory;

/// The bytes without a byte-order mark at their start.
pub(crate) fn without_mark(bytes: &[u8]) -> &[u8]
    ensures { result.now ≡ strip_bom bytes.now }
{
    if bytes.len() < 3 {
        return bytes;
    }
    if is_mark(bytes[0], bytes[1], bytes[2]) {
        return &bytes[3..];
    }
    bytes
}

// Whether three bytes are a byte-order mark.
fn is_mark(a: u8, b: u8, c: u8) -> bool
    ensures { result ≡ is_bom a b c }
{
    a == 0xEF && b == 0xBB && c == 0xBF
}

/// Adds the fields of all records of a text, without the spaces at their ends, and where each record ends. False where a
/// field begins with a quote. Linear in the text.
pub(crate) fn fill_unquoted(
    text: &[u8],
    fields: &mut ByteRecord,
    ends: &mut Vec<usize>,
) -> Result<bool, NoMemory>
    requires empty { fields_of fields.old ≡ [] }
    requires partial { partial_of fields.old ≡ [] }
    requires none { ends.old.items ≡ [] }
    ensures records { IfOk result (λ filled. filled ≡ true → spec.HasTrimmedRecords text.now (cut_records 0 ends.new.items (fields_of fields.new))) }
    ensures rising { IfOk result (λ filled. filled ≡ true → Rising 0 ends.new.items (length (fields_of fields.new))) }
{
    let mut at = record_start(text, 0);
    'records: while at < text.len() {
        let Some(end) = add_record(text, at, fields)? else {
            return Ok(false);
        };
        ends.push(fields.len())?;
        at = record_start(text, end);
    }
    Ok(true)
}

// The first place, from this one on, that is no line's end.
fn record_start(text: &[u8], from: usize) -> usize
    requires { from ≤ length text.now }
    ensures low { from ≤ result }
    ensures high { result ≤ length text.now }
    ensures begun { result < length text.now → spec.is_line_end (slice_index text.now result) ≡ false }
    ensures same { spec.record_from text.now from ≡ spec.record_from text.now result }
{
    'bytes: for place in from..text.len() {
        if !is_line_end(text[place]) {
            return place;
        }
    }
    text.len()
}

// Adds the fields of the record that begins at this place, and says where it ends; none where a field begins with a
// quote.
fn add_record(text: &[u8], start: usize, fields: &mut ByteRecord) -> Result<Option<usize>, NoMemory>
    requires inside { start < length text.now }
    requires begun { spec.is_line_end (slice_index text.now start) ≡ false }
    requires partial { partial_of fields.old ≡ [] }
    ensures adds { IfOk result (λ found. IfSome found (λ end. spec.AddsRecord text.now start end (fields_of fields.old) (fields_of fields.new))) }
    ensures partial { IfOk result (λ found. IfSome found (λ _. partial_of fields.new ≡ [])) }
{
    let mut at = start;
    'fields: while !has_at(text, at, b'"') {
        let end = field_end(text, at);
        fields.push_field(without_spaces(&text[at..end]))?;
        if !has_at(text, end, b',') {
            return Ok(Some(end));
        }
        at = end + 1;
    }
    Ok(None)
}

// Where the field ends that begins at this place and not with a quote.
fn field_end(text: &[u8], start: usize) -> usize
    requires { start ≤ length text.now }
    ensures low { start ≤ result }
    ensures high { result ≤ length text.now }
    ensures joins { Runs default_config st.InField (take (result - start) (drop start text.now)) }
    ensures ended { result < length text.now → spec.ends_field (slice_index text.now result) ≡ true }
{
    'bytes: for place in start..text.len() {
        if ends_field(text[place]) {
            return place;
        }
    }
    text.len()
}

// Whether the text has this byte, which is not 0, at this place.
fn has_at(text: &[u8], place: usize, byte: u8) -> bool
    requires { 0 < byte }
    ensures { result ≡ (slice_index text.now place == byte) }
{
    if place >= text.len() {
        return false;
    }
    text[place] == byte
}

fn ends_field(byte: u8) -> bool
    ensures { result ≡ spec.ends_field byte }
{
    byte == b',' || is_line_end(byte)
}

fn is_line_end(byte: u8) -> bool
    ensures { result ≡ spec.is_line_end byte }
{
    byte == b'\r' || byte == b'\n'
}
