ghost use Rattle.std.specs.Prelude.{◌≡◌, ◌++◌, ◌<◌, ◌^◌, ℕ, List, take, codes, decimal, Some, IfOk, IfSome, OnOk, OnErr, IsSomeAnd};
ghost use Rattle.std.specs.Option.{ForSome};
ghost use Rattle.std.specs.String.{string_bytes, string_len};
ghost use Rattle.lc_model.specs.Text.{IsIdText};
ghost use Rattle.lc_model.specs.declared.key.RunKey.{RunKey as Key};
ghost use Rattle.lc_time.specs.Date.{date_text_of};
ghost use Rattle.connection_uri.specs.Encoding.{encoded};
ghost use Rattle.connection_uri.specs.Name.{start_part_of, run_part_of, name_of, NamesDiffer};
ghost use Rattle.connection_uri.specs.Parts.{joined, ArePartsOf};

use crate::Base;
use crate::encoding::{append_encoded, decode};
use crate::parts::{NameParts, behind_base, read_decimal, read_start_part, split_parts};
use itoa::Buffer;
use lc_model::{NoMemory, RunKey, Text};
use lc_time::{date_text, read_date, start_text};
use percent_encoding::ascii_str;
use std::alloc::Global;

/// The name of the connection that a run has from its call with this sequence on:
/// {base}connections/trip/date/start/sequence. No moment of a call is in it.
pub fn name(alloc: Global, base: &Base, key: &RunKey, sequence: u32) -> Result<Text, NoMemory>
    ensures { IfOk result (λ text. text ≡ name_of base.now key.now sequence) }
{
    let mut text = String::new(alloc);
    fill_name(&mut text, base, key, sequence)?;
    Ok(Text::from_string(text))
}

/// Writes the name of a connection in place of what the text has.
pub fn fill_name(
    text: &mut String,
    base: &Base,
    key: &RunKey,
    sequence: u32,
) -> Result<(), NoMemory>
    ensures { OnOk result (string_bytes text.new ≡ name_of base.now key.now sequence) }
{
    text.clear();
    text.push_str(base.text())?;
    text.push_str("connections/")?;
    append_run(text, key)?;
    text.push_str("/")?;
    text.push_str(Buffer::new().format(sequence))?;
    Ok(())
}

/// The run and the sequence whose name the text is. None exactly where the text is no name of a connection under this
/// base, written so.
pub fn read_name(alloc: Global, base: &Base, text: &[u8]) -> Result<Option<(RunKey, u32)>, NoMemory>
    ensures said { IfOk result (λ read. IfSome read (λ p. text.now ≡ name_of base.now p.0 p.1)) }
    ensures exact { IfOk result (λ read. (key : Key) (sequence : ℕ) → IsIdText key.trip → sequence < 2 ^ 32
        → text.now ≡ name_of base.now key sequence → read ≡ Some (key, sequence)) }
{
    match split_name(base, text) {
        Some(parts) => read_parts(alloc, parts),
        None => Ok(None),
    }
}

/// The parts of a name, if the text begins as the names under this base do.
fn split_name<'a>(base: &Base, text: &'a [u8]) -> Option<NameParts<'a>>
    ensures said { IfSome result (λ p. text.now ≡ base.now.text ++ (codes "connections/" ++ joined p)) }
    ensures exact { (key : Key) (sequence : ℕ) → IsIdText key.trip → text.now ≡ name_of base.now key sequence
        → IsSomeAnd result (ArePartsOf key sequence) }
{
    let rest = behind_base(text, base, b"connections/")?;
    split_parts(rest)
}

/// The run and the sequence that the parts of a name say.
fn read_parts(alloc: Global, parts: NameParts<'_>) -> Result<Option<(RunKey, u32)>, NoMemory>
    ensures said { IfOk result (λ read. IfSome read (λ p. ArePartsOf p.0 p.1 parts.entry)) }
    ensures exact { IfOk result (λ read. (key : Key) (sequence : ℕ) → IsIdText key.trip → sequence < 2 ^ 32
        → ArePartsOf key sequence parts.entry → read ≡ Some (key, sequence)) }
{
    let (Some(date), Some(start), Some(sequence)) = (
        read_date(parts.date),
        read_start_part(parts.start),
        read_decimal(parts.sequence),
    ) else {
        return Ok(None);
    };
    let Some(trip) = decode(alloc, parts.trip)? else {
        return Ok(None);
    };
    Ok(Some((RunKey { trip, date, start }, sequence)))
}

/// Appends trip/date/start of the run, as the names of connections and of runs have them. After running out of memory the text
/// is as it was.
pub fn append_run(text: &mut String, key: &RunKey) -> Result<(), NoMemory>
    ensures ok { OnOk result (string_bytes text.new ≡ string_bytes text.old ++ run_part_of key.now) }
    ensures err { OnErr result (string_bytes text.new ≡ string_bytes text.old) }
{
    let before = text.len();
    let appended = append_parts(text, key);
    if appended.is_err() {
        text.truncate(before);
    }
    appended
}

/// Appends trip/date/start of the run. After running out of memory the text may have some of it.
fn append_parts(text: &mut String, key: &RunKey) -> Result<(), NoMemory>
    ensures ok { OnOk result (string_bytes text.new ≡ string_bytes text.old ++ run_part_of key.now) }
    ensures front { take (string_len text.old) (string_bytes text.new) ≡ string_bytes text.old }
{
    append_trip_and_date(text, key)?;
    append_start(text, key.start)?;
    Ok(())
}

/// Appends trip/date/ of the run. After running out of memory the text may have some of it.
fn append_trip_and_date(text: &mut String, key: &RunKey) -> Result<(), NoMemory>
    ensures ok { OnOk result (string_bytes text.new ≡ string_bytes text.old ++ (encoded key.now.trip ++ codes "/"
        ++ date_text_of key.now.date.year key.now.date.month key.now.date.day ++ codes "/")) }
    ensures front { take (string_len text.old) (string_bytes text.new) ≡ string_bytes text.old }
{
    append_encoded(text, key.trip.bytes())?;
    text.push_str("/")?;
    text.push_str(ascii_str(&date_text(key.date)))?;
    text.push_str("/")?;
    Ok(())
}

/// Appends the start as six digits, or `-`.
fn append_start(text: &mut String, start: Option<u32>) -> Result<(), NoMemory>
    requires { ForSome start (λ seconds. seconds < 360_000) }
    ensures ok { OnOk result (string_bytes text.new ≡ string_bytes text.old ++ start_part_of start) }
    ensures err { OnErr result (string_bytes text.new ≡ string_bytes text.old) }
{
    match start {
        Some(start) => text.push_str(ascii_str(&start_text(start)))?,
        None => text.push_str("-")?,
    }
    Ok(())
}

/// Different runs or sequences have different names under a base.
pub fn names_differ()
    ensures { NamesDiffer }
{}
