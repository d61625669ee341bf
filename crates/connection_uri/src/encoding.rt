ghost use Rattle.std.specs.Prelude.{◌≡◌, ◌++◌, ◌↔◌, ℕ, List, Some, IsTrue, IfOk, IfSome, OnOk, OnErr};
ghost use Rattle.std.specs.Cow.{cow_str_bytes};
ghost use Rattle.std.specs.String.{string_bytes};
ghost use Rattle.lc_model.specs.Text.{IsIdText};
ghost use Rattle.connection_uri.specs.Encoding.{is_unreserved, encoded};

use lc_model::{Id, NoMemory, Text};
use percent_encoding::{AsciiSet, NON_ALPHANUMERIC, ascii_set, percent_decode, percent_encode};
use std::alloc::Global;
use std::borrow::CowStr;

/// The ASCII bytes that are not unreserved.
const RESERVED: AsciiSet = ascii_set!(
    NON_ALPHANUMERIC
        .remove(b'-')
        .remove(b'.')
        .remove(b'_')
        .remove(b'~')
);

/// The id with each byte but `A-Z a-z 0-9 - . _ ~` percent-encoded, with capital letters (RFC 3986, section 2.1).
pub fn encode(alloc: Global, id: &Id) -> Result<Text, NoMemory>
    ensures { IfOk result (λ text. text ≡ encoded id.now) }
{
    let mut text = String::new(alloc);
    append_encoded(&mut text, id.bytes())?;
    Ok(Text::from_string(text))
}

/// The id whose encoding the text is. None exactly where it encodes no id, for example with a small letter in an
/// escape, or with one that is not needed. Copies the text once; one with escapes takes two copies more.
pub fn decode(alloc: Global, text: &[u8]) -> Result<Option<Id>, NoMemory>
    ensures said { IfOk result (λ read. IfSome read (λ id. IsIdText id × (text.now ≡ encoded id))) }
    ensures exact { IfOk result (λ read. (id : List ℕ) → IsIdText id → text.now ≡ encoded id → read ≡ Some id) }
{
    let Some(id) = written_id(alloc, text)? else {
        return Ok(None);
    };
    // The bytes of an id are a text.
    let _text = id.bytes();
    if is_encoding(alloc, &id, text)? {
        Ok(Some(id))
    } else {
        Ok(None)
    }
}

/// The id that this text would encode. Whether it does is not tested.
fn written_id(alloc: Global, text: &[u8]) -> Result<Option<Id>, NoMemory>
    ensures { IfOk result (λ read. (id : List ℕ) → IsIdText id → text.now ≡ encoded id → read ≡ Some id) }
{
    let bytes = percent_decode(text).into_cow(alloc)?;
    Id::new(alloc, bytes.as_slice())
}

/// Whether the text is the encoding of the id.
fn is_encoding(alloc: Global, id: &Id, text: &[u8]) -> Result<bool, NoMemory>
    ensures { IfOk result (λ same. IsTrue same ↔ (text.now ≡ encoded id.now)) }
{
    let encoding = encoding_of(alloc, id)?;
    Ok(encoding.as_str().as_bytes() == text)
}

/// The encoding of the id, which is the id itself where no byte needs an escape.
fn encoding_of<'a>(alloc: Global, id: &'a Id) -> Result<CowStr<'a, Global>, NoMemory>
    ensures { IfOk result (λ text. cow_str_bytes text ≡ encoded id.now) }
{
    Ok(percent_encode(id.bytes(), RESERVED).into_cow(alloc)?)
}

/// Appends the encoding of the bytes. After running out of memory the text is as it was.
pub fn append_encoded(text: &mut String, bytes: &[u8]) -> Result<(), NoMemory>
    ensures ok { OnOk result (string_bytes text.new ≡ string_bytes text.old ++ encoded bytes.now) }
    ensures err { OnErr result (string_bytes text.new ≡ string_bytes text.old) }
{
    percent_encode(bytes, RESERVED).append_to(text)?;
    Ok(())
}

/// Whether the byte is a letter, a digit, or one of `-`, `.`, `_` and `~`.
pub(crate) fn is_unreserved(byte: u8) -> bool
    ensures { result ≡ is_unreserved byte }
{
    byte.is_ascii_alphanumeric() || byte == b'-' || byte == b'.' || byte == b'_' || byte == b'~'
}
