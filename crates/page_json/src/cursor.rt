//! A text of JSON that is gone through from its front, as `page_text` and `stops_text` write it.

ghost use Rattle.std.specs.Prelude.{◌<◌, IfSome, length};

use memchr::{memchr, memchr2, memmem};

/// What is left of a text.
#[derive(Drop)]
pub(crate) struct Cursor<'a> {
    rest: &'a [u8],
}

impl<'a> Cursor<'a> {
    pub(crate) fn new(text: &'a [u8]) -> Cursor<'a> {
        Cursor { rest: text }
    }

    /// How many bytes are left.
    pub(crate) fn left(&self) -> usize {
        self.rest.len()
    }

    /// Moves past these bytes, if they come next.
    #[inline(always)]
    pub(crate) fn skip(&mut self, bytes: &[u8]) -> Option<()> {
        self.rest = self.rest.strip_prefix(bytes)?;
        Some(())
    }

    /// Moves past the first place where these bytes are, if they are there.
    pub(crate) fn find(&mut self, bytes: &[u8]) -> Option<()> {
        let place = memmem::find(self.rest, bytes)?;
        self.rest = self.rest.get(place..)?;
        self.skip(bytes)
    }

    /// The bytes before the next one that is this mark. Moves past the mark.
    pub(crate) fn before(&mut self, mark: u8) -> Option<&'a [u8]> {
        let place = memchr(mark, self.rest)?;
        let (front, rest) = self.rest.split_at(place);
        self.rest = rest.get(1..)?;
        Some(front)
    }

    /// The bytes between these, which come next, and the next quote. Moves past the quote.
    #[inline(always)]
    pub(crate) fn text_after(&mut self, front: &[u8]) -> Option<&'a [u8]> {
        self.skip(front)?;
        self.before(b'"')
    }

    /// The bytes between these, which come next, and the quote that ends a text, with their escapes. Moves past the quote.
    pub(crate) fn written_after(&mut self, front: &[u8]) -> Option<&'a [u8]> {
        self.skip(front)?;
        self.written()
    }

    /// The bytes up to the quote that ends a text, with their escapes. Moves past the quote.
    pub(crate) fn written(&mut self) -> Option<&'a [u8]> {
        let (front, rest) = self.rest.split_at(end_of_text(self.rest)?);
        self.rest = rest.get(1..)?;
        Some(front)
    }

    /// The whole number between these bytes, which come next, and the next comma. Moves past the comma.
    pub(crate) fn number_after(&mut self, front: &[u8]) -> Option<i64> {
        self.skip(front)?;
        let digits = std::str::from_utf8(self.before(b',')?).ok()?;
        digits.parse::<i64>().ok()
    }
}

/// Where a text ends: at the first quote that is not escaped. Linear in the text.
fn end_of_text(bytes: &[u8]) -> Option<usize>
    ensures { IfSome result (λ place. place < length bytes.now) }
{
    let mark = memchr2(b'"', b'\\', bytes)?;
    if bytes[mark] == b'"' {
        Some(mark)
    } else {
        end_behind_escapes(bytes)
    }
}

fn end_behind_escapes(bytes: &[u8]) -> Option<usize>
    ensures { IfSome result (λ place. place < length bytes.now) }
{
    let mut escaped = false;
    for place in 0..bytes.len() {
        let byte = bytes[place];
        if byte == b'"' && !escaped {
            return Some(place);
        }
        escaped = byte == b'\\' && !escaped;
    }
    None
}
