ghost use Rattle.std.specs.Prelude.{◌≡◌, ◌++◌, ◌&&◌, IfOk, nat_eq};
ghost use Rattle.std.specs.Cmp.Lexicographic.{pointwise};
ghost use Rattle.std.specs.Cmp.Rules.{comparing, hashing};
ghost use Rattle.std.specs.Hash as fed;
ghost use Rattle.std.proofs.Common.{rules};

use lc_model::{Bytes, NoMemory, Text};
use std::alloc::Global;
use std::hash::{Hash, Hasher};

/// A request and the authority to which it was sent, as `host:port`.
#[derive(Drop)]
pub struct SentRequest {
    pub authority: Text,
    pub request: Bytes,
}

impl SentRequest {
    ghost use Rattle.page_relay.specs.Kept.{sent_to};

    /// Linear in both.
    pub(crate) fn new(
        alloc: Global,
        authority: &str,
        request: &[u8],
    ) -> Result<SentRequest, NoMemory>
        ensures { IfOk result (λ sent. sent ≡ sent_to authority.now request.now) }
    {
        Ok(SentRequest {
            authority: Text::from_string(String::from_str(alloc, authority)?),
            request: Bytes::from_list(request.to_vec(alloc)?),
        })
    }
}

impl PartialEq for SentRequest {
    ghost eq = { λ a b. pointwise nat_eq a.authority b.authority && pointwise nat_eq a.request b.request };

    ghost laws = { Prim.search (comparing, rules) };

    fn eq(&self, other: &SentRequest) -> bool {
        self.authority.as_str() == other.authority.as_str()
            && self.request.as_slice() == other.request.as_slice()
    }
}

impl Eq for SentRequest {
    ghost laws = { Prim.search (comparing, rules) };
}

impl Hash for SentRequest {
    ghost hash_input = { λ sent. fed.str sent.authority ++ fed.slice fed.u8 sent.request };

    ghost respects_eq = { Prim.search (hashing, rules) };

    fn hash<H: Hasher>(&self, state: &mut H) {
        self.authority.as_str().hash(state);
        self.request.as_slice().hash(state);
    }
}
