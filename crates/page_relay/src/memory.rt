ghost use Rattle.std.specs.Prelude.{◌≡◌, ◌≤◌, [], None, IfOk, OnOk, OnErr, option_copied};

use crate::SentRequest;
use lc_model::{Bytes, NoMemory};
use lru::LruCache;
use std::alloc::Global;
use std::marker::Model;
use std::num::NonZeroUsize;

/// Replies by the requests to which they came, so many at most. One that is kept in a full memory takes the place of the one that was
/// used longest ago.
#[derive(Drop)]
pub(crate) struct Memory {
    replies: LruCache<SentRequest, Bytes>,
}

impl Model for Memory {
    ghost use Rattle.page_relay.specs.Exchanger.{MemoryState};

    ghost Value = { MemoryState };

    ghost view = { λ m. record { entries = m.replies.cap; kept = m.replies.entries } };
}

impl Memory {
    ghost use Rattle.page_relay.specs.Kept.{reply_for, with_kept, with_used};

    /// No reply yet, and so many at most.
    pub(crate) fn with_capacity(alloc: Global, entries: usize) -> Result<Memory, NoMemory>
        requires { 1 ≤ entries }
        ensures { IfOk result (λ memory. memory ≡ record { entries = entries; kept = [] }) }
    {
        let entries = NonZeroUsize::new(entries).unwrap();
        Ok(Memory {
            replies: LruCache::new(alloc, entries)?,
        })
    }

    /// The reply that is kept for a request, if there is one. Takes a constant time on average, besides that of reading the request.
    pub(crate) fn find(&self, sent: &SentRequest) -> Option<&Bytes>
        ensures { option_copied result ≡ reply_for sent.now self.now.kept }
    {
        self.replies.peek(sent)
    }

    /// The reply for a request was used, if it is kept. Takes a constant time on average, besides that of reading the request.
    pub(crate) fn touch(&mut self, sent: &SentRequest)
        ensures { self.new ≡ record self.old { kept = with_used sent.now self.old.kept } }
    {
        let _found = self.replies.promote(sent);
    }

    /// Keeps a reply in front. Takes a constant time on average, and that of dropping a reply.
    pub(crate) fn put(&mut self, sent: SentRequest, reply: Bytes) -> Result<(), NoMemory>
        requires { reply_for sent self.old.kept ≡ None }
        ensures put { OnOk result (self.new ≡ record self.old { kept = with_kept self.old.entries sent reply self.old.kept }) }
        ensures unchanged { OnErr result (self.new ≡ self.old) }
    {
        // There is room for one at least.
        let _held = self.replies.len();
        self.replies.put(sent, reply)?;
        Ok(())
    }
}
