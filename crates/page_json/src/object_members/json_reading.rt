ghost use Rattle.std.specs.Prelude.{◌≡◌, ◌≢◌, None, Some, IfOk, IfErr};
ghost use Rattle.std.specs.Str.{IsUtf8};
ghost use Rattle.json.specs.Value.{value_view};
ghost use Rattle.serde_json.specs.Read.{read};
ghost use Rattle.page_json.specs.ObjectMembers.View.{tree_of, view};
ghost use Rattle.page_json.specs.declared.object_members.fault.PageFault.TheVariants.{NoMemory as OutOfMemory, NotJson as no_json};

use crate::object_members::PageFault;
use crate::object_members::number::has_values;
use json::{Error, Reader, Scratch, Value};
use std::alloc::Global;

/// As deep as `serde_json` reads.
const MAX_DEPTH: usize = 127;

/// The JSON that the bytes are. The tree borrows its texts from the bytes, and those with escapes from the scratch.
pub fn json_in<'t>(
    alloc: Global,
    bytes: &'t [u8],
    scratch: &'t mut Scratch,
) -> Result<Value<'t>, PageFault>
    ensures ok { IfOk result (λ v. IsUtf8 bytes.now × (read bytes.now ≡ Some (view v))) }
    ensures err { IfErr result (λ fault. fault ≢ OutOfMemory
        → (fault ≡ no_json) × (IsUtf8 bytes.now → read bytes.now ≡ None)) }
{
    match simdutf8::compat::from_utf8(bytes) {
        Ok(text) => json_of(alloc, text, scratch),
        Err(_) => Err(PageFault::NotJson),
    }
}

/// The JSON that the text is. A number too large for a float makes it none, wherever it is.
fn json_of<'t>(
    alloc: Global,
    text: &'t str,
    scratch: &'t mut Scratch,
) -> Result<Value<'t>, PageFault>
    ensures ok { IfOk result (λ v. read text.now ≡ Some (view v)) }
    ensures err { IfErr result (λ fault. fault ≢ OutOfMemory → (fault ≡ no_json) × (read text.now ≡ None)) }
{
    let tree = tree_of(alloc, text, scratch)?;
    if has_values(&tree) {
        Ok(tree)
    } else {
        Err(PageFault::NotJson)
    }
}

/// The tree that the text is, whatever its numbers are.
fn tree_of<'t>(
    alloc: Global,
    text: &'t str,
    scratch: &'t mut Scratch,
) -> Result<Value<'t>, PageFault>
    ensures ok { IfOk result (λ v. tree_of text.now ≡ Some (value_view v)) }
    ensures err { IfErr result (λ fault. fault ≢ OutOfMemory → (fault ≡ no_json) × (tree_of text.now ≡ None)) }
{
    let mut reader = Reader::new(text, scratch)?;
    let tree = match Value::read(alloc, &mut reader, MAX_DEPTH) {
        Ok(tree) => tree,
        Err(Error::Invalid) => return Err(PageFault::NotJson),
        // The two others are of a tape and of a strict read.
        Err(_) => return Err(PageFault::NoMemory),
    };
    if reader.next().is_some() {
        return Err(PageFault::NotJson);
    }
    Ok(tree)
}
