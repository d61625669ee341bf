ghost use Rattle.std.specs.Prelude.{◌≡◌, ◌↔◌, ◌∷◌, ◌++◌, [], IfOk, IsTrue, None, OnErr, OnOk};
ghost use Rattle.http_text.specs.Request.{IsWhole};
ghost use Rattle.http_text.specs.declared.taken.Taken.TheVariants.{Whole as WholeRequest};
ghost use Rattle.lc_links.specs.Taking.{asked_entry};

use http_text::{Taken, take_request};
use lc_model::{Bytes, NoMemory, Text};
use lc_world::{Entry, RecordedReply};
use std::alloc::Global;

/// Whether the bytes are one whole request. Linear in their first 16,384 bytes.
pub(crate) fn is_whole(alloc: Global, bytes: &[u8]) -> Result<bool, NoMemory>
    ensures { IfOk result (λ whole. IsTrue whole ↔ IsWhole bytes.now) }
{
    Ok(is_all(take_request(alloc, bytes)?, bytes.len()))
}

/// Whether it is a whole request of so many bytes that was taken.
fn is_all(taken: Taken, length: usize) -> bool
    ensures { IsTrue result ↔ (taken ≡ WholeRequest length) }
{
    taken == Taken::Whole { length }
}

/// Records an exchange without its reply. Linear in the request.
pub(crate) fn tell(
    alloc: Global,
    recorded: &mut Vec<Entry>,
    authority: &str,
    request: &[u8],
) -> Result<(), NoMemory>
    ensures ok { OnOk result (recorded.new.items ≡ recorded.old.items ++ asked_entry authority.now request.now ∷ []) }
    ensures err { OnErr result (recorded.new.items ≡ recorded.old.items) }
{
    let entry = Entry {
        authority: Text::from_string(String::from_str(alloc, authority)?),
        request: Bytes::from_list(request.to_vec(alloc)?),
        reply: RecordedReply::Hidden,
    };
    recorded.push(entry)?;
    Ok(())
}
