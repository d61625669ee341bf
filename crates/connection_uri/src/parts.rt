ghost use Rattle.std.specs.Prelude.{◌≡◌, ◌∷◌, ◌++◌, ◌<◌, ◌^◌, ℕ, List, length, decimal, Option, Some, IfSome, IsSomeAnd};
ghost use Rattle.std.specs.Option.{ForSome};
ghost use Rattle.connection_uri.specs.Name.{start_part_of, HasNoSlash};

use crate::Base;
use itoa::Buffer;
use lc_time::read_start;

/// What follows this front in the text, if the text begins with it.
pub fn behind<'a>(text: &'a [u8], front: &[u8]) -> Option<&'a [u8]>
    ensures said { IfSome result (λ rest. text.now ≡ front.now ++ rest.now) }
    ensures exact { (rest : List ℕ) → text.now ≡ front.now ++ rest → IsSomeAnd result (λ r. r.now ≡ rest) }
{
    text.strip_prefix(front)
}

/// What follows the base and this front in the text, if the text begins with both.
pub fn behind_base<'a>(text: &'a [u8], base: &Base, front: &[u8]) -> Option<&'a [u8]>
    ensures said { IfSome result (λ rest. text.now ≡ base.now.text ++ (front.now ++ rest.now)) }
    ensures exact { (rest : List ℕ) → text.now ≡ base.now.text ++ (front.now ++ rest)
        → IsSomeAnd result (λ r. r.now ≡ rest) }
{
    let rest = behind(text, base.text().as_bytes())?;
    behind(rest, front)
}

/// The first 24 bytes of the text and what follows this mark after them, if the mark is there.
pub fn split_at_mark<'a>(text: &'a [u8], mark: &[u8]) -> Option<(&'a [u8], &'a [u8])>
    ensures said { IfSome result (λ p. text.now ≡ p.0.now ++ (mark.now ++ p.1.now)) }
    ensures exact { (moment rest : List ℕ) → length moment ≡ 24 → text.now ≡ moment ++ (mark.now ++ rest)
        → IsSomeAnd result (λ p. (p.0.now ≡ moment) × (p.1.now ≡ rest)) }
{
    let (moment, rest) = split_moment(text)?;
    let rest = behind(rest, mark)?;
    Some((moment, rest))
}

/// The first 24 bytes of the text, and the bytes after them.
fn split_moment(text: &[u8]) -> Option<(&[u8], &[u8])>
    ensures said { IfSome result (λ p. text.now ≡ p.0.now ++ p.1.now) }
    ensures exact { (moment rest : List ℕ) → length moment ≡ 24 → text.now ≡ moment ++ rest
        → IsSomeAnd result (λ p. (p.0.now ≡ moment) × (p.1.now ≡ rest)) }
{
    if text.len() < 24 {
        return None;
    }
    Some(text.split_at(24))
}

/// The text before its first slash, and the text after it.
pub fn split_at_slash(text: &[u8]) -> Option<(&[u8], &[u8])>
    ensures said { IfSome result (λ p. text.now ≡ p.0.now ++ 47 ∷ p.1.now) }
    ensures exact { (front rest : List ℕ) → HasNoSlash front → text.now ≡ front ++ 47 ∷ rest
        → IsSomeAnd result (λ p. (p.0.now ≡ front) × (p.1.now ≡ rest)) }
{
    for (at, byte) in text.iter().enumerate() {
        if *byte == b'/' {
            return Some((&text[..at], &text[at + 1..]));
        }
    }
    None
}

/// The four parts of a name after its base, with a slash between each two.
#[derive(Clone, Copy)]
pub struct NameParts<'a> {
    pub trip: &'a [u8],
    pub date: &'a [u8],
    pub start: &'a [u8],
    pub sequence: &'a [u8],
}

/// The text before its first three slashes, between them and after them.
pub fn split_parts(text: &[u8]) -> Option<NameParts<'_>>
    ensures said { IfSome result
        (λ p. text.now ≡ p.trip.now ++ 47 ∷ (p.date.now ++ 47 ∷ (p.start.now ++ 47 ∷ p.sequence.now))) }
    ensures exact { (trip date start sequence : List ℕ) → HasNoSlash trip → HasNoSlash date → HasNoSlash start
        → text.now ≡ trip ++ 47 ∷ (date ++ 47 ∷ (start ++ 47 ∷ sequence))
        → IsSomeAnd result (λ p. (p.trip.now ≡ trip) × (p.date.now ≡ date) × (p.start.now ≡ start)
        × (p.sequence.now ≡ sequence)) }
{
    let (trip, rest) = split_at_slash(text)?;
    let (date, rest) = split_at_slash(rest)?;
    let (start, sequence) = split_at_slash(rest)?;
    Some(NameParts {
        trip,
        date,
        start,
        sequence,
    })
}

/// The start that six digits say, or none for `-`.
pub fn read_start_part(text: &[u8]) -> Option<Option<u32>>
    ensures in_range { IfSome result (λ start. ForSome start (λ seconds. seconds < 360_000)) }
    ensures said { IfSome result (λ start. text.now ≡ start_part_of start) }
    ensures exact { (start : Option ℕ) → ForSome start (λ seconds. seconds < 360_000) → text.now ≡ start_part_of start
        → result ≡ Some start }
{
    if text == b"-".as_slice() {
        return Some(None);
    }
    match read_start(text) {
        Some(start) => Some(Some(start)),
        None => None,
    }
}

/// The number that is written so in decimal, with no zero at its front.
pub fn read_decimal(text: &[u8]) -> Option<u32>
    ensures said { IfSome result (λ n. text.now ≡ decimal n) }
    ensures exact { (n : ℕ) → n < 2 ^ 32 → text.now ≡ decimal n → result ≡ Some n }
{
    match parse_decimal(text) {
        Some(n) if Buffer::new().format(n).as_bytes() == text => Some(n),
        _ => None,
    }
}

/// The number that this text would write. Whether it is written so is not tested.
fn parse_decimal(text: &[u8]) -> Option<u32>
    ensures { (n : ℕ) → n < 2 ^ 32 → text.now ≡ decimal n → result ≡ Some n }
{
    match std::str::from_utf8(text) {
        Ok(text) => parse_text(text),
        Err(_) => None,
    }
}

fn parse_text(text: &str) -> Option<u32>
    ensures { (n : ℕ) → n < 2 ^ 32 → text.now ≡ decimal n → result ≡ Some n }
{
    match text.parse::<u32>() {
        Ok(n) => Some(n),
        Err(_) => None,
    }
}
