ghost use Rattle.std.specs.Prelude.{◌≡◌, ◌≤◌, ◌<◌, ◌+◌, ◌*◌, ◌++◌, ℕ, List, OnErr, OnOk, length};
ghost use Rattle.std.specs.List.{AllByRecursion};
ghost use Rattle.rt_protobuf.specs.Grammar.{AreFields, IsField, WireField, varint, text};
ghost use Rattle.rt_protobuf.specs.Varint.{IsVarint};
ghost use Rattle.rt_protobuf.specs.Writing.{AddsBytes, IsWritableField, field_text, fields_text, varint_text, varint_within};

use lc_model::NoMemory;

/// Appends the field of this number that holds the varint of a value. After running out of memory `out` is as it was.
///
/// It is the one that `next_field` reads back. Its tag and its varint have as few bytes as they can. It takes the time of a constant
/// number of bytes.
pub fn put_varint(out: &mut Vec<u8>, number: u32, value: u64) -> Result<(), NoMemory>
    requires some { 1 ≤ number }
    requires most { number ≤ 536_870_911 }
    ensures appended { OnOk result (out.new.items ≡ out.old.items ++ field_text (record { number = number; content = varint value })) }
    ensures unchanged { OnErr result (out.new.items ≡ out.old.items) }
    ensures field { IsField (field_text (record { number = number; content = varint value })) (record { number = number; content = varint value }) }
{
    let before = out.len();
    match push_varint_field(out, number, value) {
        Ok(()) => Ok(()),
        Err(NoMemory) => {
            out.truncate(before);
            Err(NoMemory)
        }
    }
}

/// Appends the field of this number that holds these bytes. After running out of memory `out` is as it was.
///
/// It is the one that `next_field` reads back. Its tag and its length have as few bytes as they can. Linear in the bytes.
pub fn put_bytes(out: &mut Vec<u8>, number: u32, bytes: &[u8]) -> Result<(), NoMemory>
    requires some { 1 ≤ number }
    requires most { number ≤ 536_870_911 }
    ensures appended { OnOk result (out.new.items ≡ out.old.items ++ field_text (record { number = number; content = text bytes.now })) }
    ensures unchanged { OnErr result (out.new.items ≡ out.old.items) }
    ensures field { IsField (field_text (record { number = number; content = text bytes.now })) (record { number = number; content = text bytes.now }) }
{
    let before = out.len();
    match push_text_field(out, number, bytes) {
        Ok(()) => Ok(()),
        Err(NoMemory) => {
            out.truncate(before);
            Err(NoMemory)
        }
    }
}

/// Appends a tag and a varint, or a front of them.
fn push_varint_field(out: &mut Vec<u8>, number: u32, value: u64) -> Result<(), NoMemory>
    ensures appended { OnOk result (out.new.items ≡ out.old.items ++ (varint_text (number * 8 + 0) ++ varint_text value)) }
    ensures adds { AddsBytes out.old.items out.new.items }
{
    push_varint(out, 10, tag(number, 0))?;
    push_varint(out, 10, value)
}

/// Appends a tag, a length and the bytes, or a front of them.
fn push_text_field(out: &mut Vec<u8>, number: u32, bytes: &[u8]) -> Result<(), NoMemory>
    ensures appended { OnOk result (out.new.items ≡ out.old.items ++ (varint_text (number * 8 + 2) ++ (varint_text (length bytes.now) ++ bytes.now))) }
    ensures adds { AddsBytes out.old.items out.new.items }
{
    push_varint(out, 10, tag(number, 2))?;
    push_varint(out, 10, bytes.len() as u64)?;
    out.extend_from_slice(bytes)?;
    Ok(())
}

/// A field's number with its wire type.
fn tag(number: u32, wire: u8) -> u64
    requires { wire < 8 }
    ensures { result ≡ number * 8 + wire }
{
    u64::from(number) * 8 + u64::from(wire)
}

/// Appends the varint of a number, of at most so many bytes, or a front of it.
#[tactic(auto, unfolding(crate::specs::Writing::varint_within))]
fn push_varint(out: &mut Vec<u8>, left: u8, number: u64) -> Result<(), NoMemory>
    ensures appended { OnOk result (out.new.items ≡ out.old.items ++ varint_within left number) }
    ensures adds { AddsBytes out.old.items out.new.items }
{
    if left == 0 {
        return Ok(());
    }
    if number < 128 {
        out.push(number as u8)?;
        return Ok(());
    }
    out.push((number % 128) as u8 + 128)?;
    push_varint(out, left - 1, number / 128)
}

/// The law that what is written for fields reads as these fields, and that no other spelling of a varint has fewer bytes.
pub fn written_fields()
    ensures field { (f : WireField) → IsWritableField f → IsField (field_text f) f }
    ensures fields { (fields : List WireField) → AllByRecursion IsWritableField fields → AreFields (fields_text fields) fields }
    ensures shortest { (n : ℕ) (bytes : List ℕ) → AllByRecursion (λ b. b < 256) bytes → IsVarint bytes n → length (varint_text n) ≤ length bytes }
{}
