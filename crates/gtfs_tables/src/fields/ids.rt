ghost use Rattle.std.specs.Prelude.{◌≡◌, ◌==◌, IfOk, None, Some, if◌then◌else◌, length};
ghost use Rattle.std.specs.Str.{IsUtf8};
ghost use Rattle.lc_model.specs.Text.{IsIdText};

use lc_model::{Id, NoMemory, Text};
use std::alloc::Global;
use std::str;

/// The id that is written so.
pub fn id_of(alloc: Global, text: &[u8]) -> Result<Id, NoMemory>
    requires { IsIdText text.now }
    ensures { IfOk result (λ id. id ≡ text.now) }
{
    match Id::new(alloc, text)? {
        Some(id) => Ok(id),
        // No id is refused.
        None => Err(NoMemory),
    }
}

/// The text of these bytes.
pub fn text_of(alloc: Global, bytes: &[u8]) -> Result<Text, NoMemory>
    requires { IsUtf8 bytes.now }
    ensures { IfOk result (λ text. text ≡ bytes.now) }
{
    match str::from_utf8(bytes) {
        Ok(text) => Ok(Text::from_string(String::from_str(alloc, text)?)),
        // No text is refused.
        Err(_) => Err(NoMemory),
    }
}

/// The id that is written so, if the text is not empty.
pub fn optional_id(alloc: Global, text: &[u8]) -> Result<Option<Id>, NoMemory>
    requires { IsUtf8 text.now }
    ensures { IfOk result (λ id. id ≡ (if length text.now == 0 then None else Some text.now)) }
{
    if text.is_empty() {
        return Ok(None);
    }
    Ok(Some(id_of(alloc, text)?))
}
