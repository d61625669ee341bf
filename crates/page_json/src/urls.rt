ghost use Rattle.std.specs.Prelude.{◌≡◌, ℕ, List, Some, IfOk, IfSome};
ghost use Rattle.page_json.specs.Says.{SaysStop};

use connection_uri::{Base, behind_base, decode};
use lc_model::{Id, NoMemory};
use std::alloc::Global;

/// The stop whose URL the text is. None exactly where the text is no URL of a stop under this base, written so.
pub fn read_stop_url(alloc: Global, base: &Base, text: &[u8]) -> Result<Option<Id>, NoMemory>
    ensures said { IfOk result (λ read. IfSome read (SaysStop base.now text.now)) }
    ensures exact { IfOk result (λ read. (stop : List ℕ) → SaysStop base.now text.now stop → read ≡ Some stop) }
{
    match behind_base(text, base, b"stops/") {
        Some(id) => decode(alloc, id),
        None => Ok(None),
    }
}
