ghost use Rattle.std.specs.Prelude.{◌≡◌, length, All};
ghost use Rattle.httparse.specs.Spans.{IsHeaderWithin};
ghost use Rattle.http_text.specs.Length.{length_of, is_wrong, said_or, length_at};
ghost use Rattle.http_text.specs.Named.{texts_at};

use crate::named::{Values, values_named};
use httparse::spans::HeaderSpan;
use lc_time::read_decimal;

/// What the fields of a head say of the length of the body (RFC 9110, section 8.6).
#[derive(Clone, Copy, PartialEq, Eq)]
pub enum Length {
    Missing,
    Said(u64),
    /// Two lengths, or one that is not one to ten digits.
    Wrong,
}

impl Length {
    pub fn is_wrong(self) -> bool
        ensures { result ≡ is_wrong self }
    {
        match self {
            Length::Wrong => true,
            Length::Missing | Length::Said(_) => false,
        }
    }

    /// The length, or this one where none is said.
    pub fn said_or(self, default: u64) -> u64
        ensures { result ≡ said_or self default }
    {
        match self {
            Length::Said(length) => length,
            Length::Missing | Length::Wrong => default,
        }
    }
}

/// The length that the fields say. Takes time linear in the bytes of the names.
pub fn length_of(bytes: &[u8], fields: &[HeaderSpan]) -> Length
    requires { All (IsHeaderWithin (length bytes.now)) fields.now }
    ensures { result ≡ length_of (texts_at bytes.now fields.now) }
{
    match values_named(bytes, fields, b"content-length") {
        Values::Absent => Length::Missing,
        Values::One(value) => length_at(value),
        Values::More(_) => Length::Wrong,
    }
}

fn length_at(value: &[u8]) -> Length
    ensures { result ≡ length_at value.now }
{
    match read_decimal(value) {
        Some(length) => Length::Said(length),
        None => Length::Wrong,
    }
}
