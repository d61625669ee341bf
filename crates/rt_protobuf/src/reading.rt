ghost use Rattle.std.specs.Prelude.{◌≡◌, ◌≤◌, ◌+◌, ◌-◌, ◌*◌, ◌/◌, ◌%◌, ◌^◌, ◌↔◌, length, slice_range, IfOk, IfSome, IfErr, Ok, Err, None, ◌<◌};
ghost use Rattle.rt_protobuf.specs.Reading.{Gives, varint_at, text_at, eight_at, four_at, content_at, parts_of, field_at};
ghost use Rattle.rt_protobuf.specs.declared.fault.WireFault.{WireFault};
ghost use Rattle.rt_protobuf.specs.Held.{held_content, value_before, FitsBefore};
ghost use Rattle.rt_protobuf.specs.Grammar.{WireField, IsBroken};
ghost use Rattle.rt_protobuf.specs.Message.{IsFieldAt, begun};

use crate::WireFault;
use crate::field::{Field, LAST_NUMBER, Value};

/// What a field holds, with the bytes themselves.
enum Held<'a> {
    Varint(u64),
    Eight(u64),
    Text(&'a [u8]),
    Four(u32),
}

impl Held<'_> {
    // The value in a message where the bytes end before this place.
    fn ending_before(self, next: usize) -> Value
        requires { FitsBefore next (held_content self) }
        ensures { result ≡ value_before next (held_content self.entry) }
    {
        match self {
            Held::Varint(number) => Value::Varint(number),
            Held::Eight(number) => Value::Eight(number),
            Held::Text(inner) => Value::Span {
                from: next - inner.len(),
                to: next,
            },
            Held::Four(number) => Value::Four(number),
        }
    }
}

// Seven bits of a number below those that come after them.
fn joined(first: u8, high: u64) -> u64
    requires { 128 ≤ first }
    ensures { result ≡ (first - 128 + 128 * high) % 2 ^ 64 }
{
    high.wrapping_mul(128).wrapping_add(u64::from(first - 128))
}

// The varint at the front, of at most `left` bytes, and the bytes after it.
#[tactic(auto, unfolding(crate::specs::Reading::varint_at))]
fn varint(bytes: &[u8], left: u8, place: usize) -> Result<(u64, &[u8]), WireFault>
    ensures { Gives (λ x. (x.0, x.1.now)) result (varint_at place left bytes.now) }
{
    match bytes {
        _ if left == 0 => Err(WireFault::LongVarint { place }),
        [] => Err(WireFault::Cut { place }),
        [first, rest @ ..] if *first < 128 => Ok((u64::from(*first), rest)),
        [first, rest @ ..] => {
            let (high, behind) = varint(rest, left - 1, place)?;
            Ok((joined(*first, high), behind))
        }
    }
}

// A length, and that many bytes.
#[tactic(auto, unfolding(crate::specs::Reading::text_at))]
fn text(bytes: &[u8], place: usize) -> Result<(&[u8], &[u8]), WireFault>
    ensures { Gives (λ x. (x.0.now, x.1.now)) result (text_at place bytes.now) }
{
    let (count, rest) = varint(bytes, 10, place)?;
    if (rest.len() as u64) < count {
        return Err(WireFault::Cut { place });
    }
    Ok(rest.split_at(count as usize))
}

#[tactic(auto, unfolding(crate::specs::Reading::eight_at))]
fn eight(bytes: &[u8], place: usize) -> Result<(u64, &[u8]), WireFault>
    ensures { Gives (λ x. (x.0, x.1.now)) result (eight_at place bytes.now) }
{
    match bytes.split_first_chunk::<8>() {
        Some((number, rest)) => Ok((u64::from_le_bytes(*number), rest)),
        None => Err(WireFault::Cut { place }),
    }
}

#[tactic(auto, unfolding(crate::specs::Reading::four_at))]
fn four(bytes: &[u8], place: usize) -> Result<(u32, &[u8]), WireFault>
    ensures { Gives (λ x. (x.0, x.1.now)) result (four_at place bytes.now) }
{
    match bytes.split_first_chunk::<4>() {
        Some((number, rest)) => Ok((u32::from_le_bytes(*number), rest)),
        None => Err(WireFault::Cut { place }),
    }
}

// What a field of this wire type holds, and the bytes after it.
#[tactic(auto, unfolding(crate::specs::Reading::content_at))]
fn content(bytes: &[u8], wire: u64, place: usize) -> Result<(Held<'_>, &[u8]), WireFault>
    ensures { Gives (λ x. (held_content x.0, x.1.now)) result (content_at place wire bytes.now) }
{
    match wire {
        0 => {
            let (number, rest) = varint(bytes, 10, place)?;
            Ok((Held::Varint(number), rest))
        }
        1 => {
            let (number, rest) = eight(bytes, place)?;
            Ok((Held::Eight(number), rest))
        }
        2 => {
            let (inner, rest) = text(bytes, place)?;
            Ok((Held::Text(inner), rest))
        }
        5 => {
            let (number, rest) = four(bytes, place)?;
            Ok((Held::Four(number), rest))
        }
        3 | 4 => Err(WireFault::Group { place }),
        _ => Err(WireFault::BadField { place }),
    }
}

// The number of the field at the front, what it holds, and the bytes after it.
#[tactic(auto, unfolding(crate::specs::Reading::field_at))]
fn field(bytes: &[u8], place: usize) -> Result<(u32, Held<'_>, &[u8]), WireFault>
    ensures { Gives (λ x. (record { number = x.0; content = held_content x.1 }, x.2.now)) result
        (field_at place bytes.now) }
{
    let (tag, rest) = varint(bytes, 10, place)?;
    let number = tag / 8;
    if number == 0 || number > LAST_NUMBER {
        return Err(WireFault::BadField { place });
    }
    let (held, behind) = content(rest, tag % 8, place)?;
    Ok((number as u32, held, behind))
}

/// The field of the message that begins at the place `from` and ends up to the place `to`, or none where no byte is
/// there. It takes no memory, and the time of a constant number of bytes.
///
/// Of a broken field the first fault is answered. The order is the varint of the tag, its number and wire type, that it
/// is no group, what it holds (Protocol Buffers, "Encoding").
pub fn next_field(bytes: &[u8], from: usize, to: usize) -> Result<Option<Field>, WireFault>
    requires order { from ≤ to }
    requires within { to ≤ length bytes.now }
    ensures none { (result ≡ Ok None) ↔ (from ≡ to) }
    ensures found { IfOk result (λ found. IfSome found (IsFieldAt bytes.now from to)) }
    ensures fault { IfErr result (IsBroken from (slice_range bytes.now from to)) }
    ensures only_fault { (fault : WireFault) → from < to →
        IsBroken from (slice_range bytes.now from to) fault → result ≡ Err fault }

    // However the bytes part, this is how they begin.
    ensures parts { parts_of from (slice_range bytes.now from to) ≡ begun bytes.now from to result }
{
    if from == to {
        return Ok(None);
    }
    let (number, held, behind) = field(&bytes[from..to], from)?;
    let next = to - behind.len();
    let value = held.ending_before(next);
    Ok(Some(Field {
        number,
        value,
        next,
    }))
}
