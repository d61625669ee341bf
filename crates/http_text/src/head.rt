ghost use Rattle.std.specs.Prelude.{◌≡◌, length, All};
ghost use Rattle.httparse.specs.Spans.{IsHeaderWithin};
ghost use Rattle.http_text.specs.Named.{texts_at};
ghost use Rattle.http_text.specs.Request.{has_field, is_hostless, refusal_of};

use crate::length::length_of;
use crate::named::{Values, values_named};
use crate::target::has_taken_form;
use httparse::spans::HeaderSpan;

/// How many fields the head of a message may have.
pub const MOST_FIELDS: usize = 100;

/// How many bytes the body of a request may have.
pub const BODY_BYTES: u64 = 16_777_216;

/// The status with which a request with this head is refused, by the first test that it fails. Takes time linear in the
/// bytes of the fields.
pub fn refusal_of(bytes: &[u8], fields: &[HeaderSpan], minor: u8, target: &[u8]) -> Option<u16>
    requires { All (IsHeaderWithin (length bytes.now)) fields.now }
    ensures { result ≡ refusal_of minor target.now (texts_at bytes.now fields.now) }
{
    let length = length_of(bytes, fields);
    if fields.len() > MOST_FIELDS {
        Some(431)
    } else if has_field(bytes, fields, b"transfer-encoding") {
        Some(411)
    } else if length.is_wrong() {
        Some(400)
    } else if length.said_or(0) > BODY_BYTES {
        Some(413)
    } else if is_hostless(bytes, fields, minor) {
        Some(400)
    } else if has_taken_form(target) {
        None
    } else {
        Some(400)
    }
}

pub fn has_field(bytes: &[u8], fields: &[HeaderSpan], name: &[u8]) -> bool
    requires { All (IsHeaderWithin (length bytes.now)) fields.now }
    ensures { result ≡ has_field name.now (texts_at bytes.now fields.now) }
{
    match values_named(bytes, fields, name) {
        Values::Absent => false,
        Values::One(_) | Values::More(_) => true,
    }
}

/// Whether the head is of HTTP/1.1 and has not exactly one Host.
fn is_hostless(bytes: &[u8], fields: &[HeaderSpan], minor: u8) -> bool
    requires { All (IsHeaderWithin (length bytes.now)) fields.now }
    ensures { result ≡ is_hostless minor (texts_at bytes.now fields.now) }
{
    let one = match values_named(bytes, fields, b"host") {
        Values::One(_) => true,
        Values::Absent | Values::More(_) => false,
    };
    minor == 1 && !one
}
