ghost use Rattle.std.specs.Prelude.{◌≡◌, ◌<◌, [], ◌∷◌, length, All, IfSome, MatchOption};
ghost use Rattle.http_text.specs.declared.connection.Quoting.TheVariants.{Outside as Start};
ghost use Rattle.http_text.specs.Elements.{elements, is_part, quoting_after};
ghost use Rattle.httparse.specs.Spans.{IsHeaderWithin};
ghost use Rattle.http_text.specs.Fields.{is_close, has_close, closes};
ghost use Rattle.http_text.specs.Named.{texts_at};

use crate::named::{is_named, is_same};
use httparse::spans::HeaderSpan;
use lc_time::without_blanks;

/// Whether the connection ends after the message (RFC 9112, section 9.6). Takes time linear in the bytes of the fields.
pub fn closes(bytes: &[u8], fields: &[HeaderSpan], minor: u8) -> bool
    requires { All (IsHeaderWithin (length bytes.now)) fields.now }
    ensures { result ≡ closes minor (texts_at bytes.now fields.now) }
{
    let mut close = minor == 0;
    for field in fields {
        if is_named(bytes, *field, b"connection") && has_close(field.value.of(bytes)) {
            close = true;
        }
    }
    close
}

/// Whether an element of the list is the word `close`.
fn has_close(value: &[u8]) -> bool
    ensures { result ≡ has_close value.now }
{
    let mut rest = value;
    while let Some((element, others)) = split_at_comma(rest) {
        if is_close(element) {
            return true;
        }
        rest = others;
    }
    is_close(rest)
}

/// Where a byte of a list is: outside of quoted strings, inside one, or after a backslash inside one.
#[derive(Clone, Copy)]
enum Quoting {
    Outside,
    Inside,
    Escaped,
}

/// The first element of a list, and the others, if there are others.
fn split_at_comma(list: &[u8]) -> Option<(&[u8], &[u8])>
    ensures shorter { IfSome result (λ parts. length parts.1.now < length list.now) }
    ensures parts { MatchOption result (elements Start list.now ≡ list.now ∷ [])
        (λ parts. elements Start list.now ≡ parts.0.now ∷ elements Start parts.1.now) }
{
    let mut quoting = Quoting::Outside;
    for (at, byte) in list.iter().enumerate() {
        if is_part(quoting, *byte) {
            return Some((&list[..at], &list[at + 1..]));
        }
        quoting = quoting_after(quoting, *byte);
    }
    None
}

/// Whether the byte parts the elements: a comma outside of quoted strings.
fn is_part(quoting: Quoting, byte: u8) -> bool
    ensures { result ≡ is_part quoting byte }
{
    match quoting {
        Quoting::Outside => byte == b',',
        Quoting::Inside | Quoting::Escaped => false,
    }
}

/// Where the byte after this one is.
fn quoting_after(quoting: Quoting, byte: u8) -> Quoting
    ensures { result ≡ quoting_after quoting byte }
{
    match (quoting, byte) {
        (Quoting::Outside, b'"') => Quoting::Inside,
        (Quoting::Outside, _) => Quoting::Outside,
        (Quoting::Inside, b'"') => Quoting::Outside,
        (Quoting::Inside, b'\\') => Quoting::Escaped,
        (Quoting::Inside | Quoting::Escaped, _) => Quoting::Inside,
    }
}

fn is_close(element: &[u8]) -> bool
    ensures { result ≡ is_close element.now }
{
    is_same(without_blanks(element), b"close")
}
