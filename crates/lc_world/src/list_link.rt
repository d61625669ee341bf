ghost use Rattle.std.specs.Prelude.{◌≡◌, ◌⊎◌, ◌↔◌, [], Contains, None, Some, IfOk, OnErr, OnOk, IsErrOf, IsTrue, slice_get};
ghost use Rattle.lc_io.specs.Counts.{HasCause, one_more};
ghost use Rattle.lc_world.specs.Link.{Tells};
ghost use Rattle.lc_world.specs.ListLink.{Fails, Gives, IsListed, IsUsedUp, Keeps, with_call};
ghost use Rattle.lc_world.specs.declared.entry.RecordedReply.TheVariants.{Reply};
ghost use Rattle.lc_world.specs.declared.link.LinkFail.TheVariants.{Failed, NoMemory as OutOfMemory};

use crate::{Entry, Link, LinkFail, RecordedReply};
use lc_model::{Bytes, NoMemory, Text};
use std::alloc::Global;
use std::marker::Model;

/// Whether the call after so many is one of those that fail. Linear in their numbers.
fn is_listed(fails: &[u64], calls: u64) -> bool
    ensures { IsTrue result ↔ Contains fails.now (one_more calls) }
{
    let next = calls.saturating_add(1);
    fails.contains(&next)
}

/// A link that gives the replies of a list in order, whatever is asked, and fails after the last of them. Some of its calls fail too.
#[derive(Drop)]
pub struct ListLink {
    replies: Vec<Bytes>,
    fails: Vec<u64>,
    given: usize,
    calls: u64,
    recorded: Vec<Entry>,
    faults: u64,
}

impl Model for ListLink {
    ghost use Rattle.lc_world.specs.ListLink.{ListLinkState};

    ghost Value = { ListLinkState };

    ghost view = { λ l. record {
      replies = l.replies.items;
      fails = l.fails.items;
      given = l.given;
      calls = l.calls;
      recorded = l.recorded.items;
      faults = l.faults;
    } };
}

impl ListLink {
    /// A link of which a call fails only where no reply is left.
    pub fn new(replies: Vec<Bytes>) -> Result<ListLink, NoMemory>
        ensures { IfOk result (λ link. link ≡ record { replies = replies.items; fails = []; given = 0; calls = 0; recorded = []; faults = 0 }) }
    {
        let alloc = *replies.allocator();
        ListLink::with_fails(alloc, replies, Vec::new(alloc))
    }

    /// A link of which the calls with these numbers fail, exchanges and those that hand on together, from 1. A call that runs out of
    /// memory does not count.
    pub fn with_fails(
        alloc: Global,
        replies: Vec<Bytes>,
        fails: Vec<u64>,
    ) -> Result<ListLink, NoMemory>
        ensures { IfOk result (λ link. link ≡ record { replies = replies.items; fails = fails.items; given = 0; calls = 0; recorded = []; faults = 0 }) }
    {
        Ok(ListLink {
            replies,
            fails,
            given: 0,
            calls: 0,
            recorded: Vec::new(alloc),
            faults: 0,
        })
    }

    /// The exchanges, each with what was replied, in their order.
    pub fn recorded(&self) -> &[Entry]
        ensures { result.now ≡ self.now.recorded }
    {
        self.recorded.as_slice()
    }

    /// Puts the next reply in the place of what `reply` holds, and says whether there was one. Linear in that reply.
    fn put_next(&self, reply: &mut Vec<u8>) -> Result<bool, NoMemory>
        ensures put { IfOk result (λ put. IsTrue put → slice_get self.now.replies self.now.given ≡ Some reply.new.items) }
        ensures used_up { IfOk result (λ put. ¬ (IsTrue put) → IsUsedUp self.now × (reply.new.items ≡ reply.old.items)) }
    {
        let Some(next) = self.replies.get(self.given) else {
            return Ok(false);
        };
        reply.clear();
        reply.extend_from_slice(next.as_slice())?;
        Ok(true)
    }

    /// Whether the next call is one that fails. Linear in the numbers.
    fn fails_now(&self) -> bool
        ensures { IsTrue result ↔ IsListed self.now }
    {
        is_listed(self.fails.as_slice(), self.calls)
    }

    /// Counts a call and records it. Linear in the request.
    fn tell(
        &mut self,
        alloc: Global,
        authority: &str,
        request: &[u8],
        reply: RecordedReply,
    ) -> Result<(), NoMemory>
        ensures ok { OnOk result (self.new ≡ with_call self.old authority.now request.now reply) }
        ensures err { OnErr result (self.new ≡ self.old) }
    {
        let entry = Entry {
            authority: Text::from_string(String::from_str(alloc, authority)?),
            request: Bytes::from_list(request.to_vec(alloc)?),
            reply,
        };
        self.recorded.push(entry)?;
        self.calls = self.calls.saturating_add(1);
        Ok(())
    }

    /// Records an exchange with this answer. Linear in it and in the request.
    fn tell_answer(
        &mut self,
        alloc: Global,
        authority: &str,
        request: &[u8],
        reply: &[u8],
    ) -> Result<(), NoMemory>
        ensures ok { OnOk result (self.new ≡ with_call self.old authority.now request.now (Reply reply.now)) }
        ensures err { OnErr result (self.new ≡ self.old) }
    {
        let answer = Bytes::from_list(reply.to_vec(alloc)?);
        self.tell(alloc, authority, request, RecordedReply::Reply(answer))
    }

    /// Fails at a call, unless there is no memory to record it.
    fn fail(&mut self, alloc: Global, authority: &str, request: &[u8]) -> LinkFail
        ensures failed { result ≡ Failed → Fails self.old self.new authority.now request.now }
        ensures no_memory { result ≡ OutOfMemory → self.new ≡ self.old }
        ensures faults { HasCause self.old.faults self.new.faults (result ≡ Failed) }
    {
        match self.tell(alloc, authority, request, RecordedReply::Failed) {
            Ok(()) => {
                self.faults = self.faults.saturating_add(1);
                LinkFail::Failed
            }
            Err(NoMemory) => LinkFail::NoMemory,
        }
    }

    /// Gives the next reply, or says that there is none. After running out of memory nothing has changed but `reply`.
    fn give_next(
        &mut self,
        alloc: Global,
        authority: &str,
        request: &[u8],
        reply: &mut Vec<u8>,
    ) -> Result<bool, NoMemory>
        ensures gives { IfOk result (λ given. IsTrue given → Gives self.old self.new authority.now request.now reply.new.items) }
        ensures used_up { IfOk result (λ given. ¬ (IsTrue given) → IsUsedUp self.old × (self.new ≡ self.old) × (reply.new.items ≡ reply.old.items)) }
        ensures err { OnErr result (self.new ≡ self.old) }
    {
        if !self.put_next(reply)? {
            return Ok(false);
        }
        self.tell_answer(alloc, authority, request, reply.as_slice())?;
        self.given = self.given.saturating_add(1);
        Ok(true)
    }

    /// What `exchange` does, with `reply` as it comes after an error.
    fn reply_next(
        &mut self,
        alloc: Global,
        authority: &str,
        request: &[u8],
        reply: &mut Vec<u8>,
    ) -> Result<(), LinkFail>
        ensures gives { OnOk result (Gives self.old self.new authority.now request.now reply.new.items) }
        ensures not_listed { OnOk result (¬ IsListed self.old) }
        ensures failed { IsErrOf result Failed → Fails self.old self.new authority.now request.now }
        ensures cause { IsErrOf result Failed → IsListed self.old ⊎ IsUsedUp self.old }
        ensures no_memory { IsErrOf result OutOfMemory → self.new ≡ self.old }
        ensures faults { HasCause self.old.faults self.new.faults (IsErrOf result Failed) }
    {
        if self.fails_now() {
            return Err(self.fail(alloc, authority, request));
        }
        if self.give_next(alloc, authority, request, reply)? {
            return Ok(());
        }
        Err(self.fail(alloc, authority, request))
    }

    /// What `pass` does, with `reply` as it comes after an error.
    fn keep(
        &mut self,
        alloc: Global,
        authority: &str,
        request: &[u8],
        reply: &mut Vec<u8>,
    ) -> Result<(), LinkFail>
        ensures gives { OnOk result (¬ IsUsedUp self.old → Gives self.old self.new authority.now request.now reply.new.items) }
        ensures keeps { OnOk result (IsUsedUp self.old → Keeps self.old self.new authority.now request.now reply.old.items
            × (reply.new.items ≡ reply.old.items)) }
        ensures not_listed { OnOk result (¬ IsListed self.old) }
        ensures failed { IsErrOf result Failed → Fails self.old self.new authority.now request.now }
        ensures listed { IsErrOf result Failed → IsListed self.old }
        ensures no_memory { IsErrOf result OutOfMemory → self.new ≡ self.old }
        ensures faults { HasCause self.old.faults self.new.faults (IsErrOf result Failed) }
    {
        if self.fails_now() {
            return Err(self.fail(alloc, authority, request));
        }
        if self.give_next(alloc, authority, request, reply)? {
            return Ok(());
        }
        self.tell_answer(alloc, authority, request, reply.as_slice())?;
        Ok(())
    }
}

impl Link for ListLink {
    ghost use Rattle.std.specs.Prelude.{◌≡◌, Some, None};
    ghost use Rattle.lc_world.specs.ListLink.{IsUsedUp};

    ghost behind = { λ _. None };

    /// It records its exchanges with their replies, and no side.
    ghost seen = { λ l. record {
      side = None;
      recorded = Some l.recorded;
      honest = λ _. ⊥;
      quiet = λ _. ⊥;
      clear = IsUsedUp l;
      still = Unit {0};
      faults = l.faults;
    } };

    fn exchange(
        &mut self,
        alloc: Global,
        authority: &str,
        request: &[u8],
        reply: &mut Vec<u8>,
    ) -> Result<(), LinkFail>
        ensures gives { OnOk result (Gives self.old self.new authority.now request.now reply.new.items) }
        ensures not_listed { OnOk result (¬ IsListed self.old) }
        ensures failed { IsErrOf result Failed → Fails self.old self.new authority.now request.now }
        ensures cause { IsErrOf result Failed → IsListed self.old ⊎ IsUsedUp self.old }
        ensures no_memory { IsErrOf result OutOfMemory → self.new ≡ self.old }
        ensures clear { IsUsedUp self.old → IsUsedUp self.new }
        ensures recorded { Tells (Some self.old.recorded) (Some self.new.recorded) authority.now request.now reply.new.items result }
        ensures empty { OnErr result (reply.new.items ≡ []) }
        ensures faults { HasCause self.old.faults self.new.faults (IsErrOf result Failed) }
    {
        match self.reply_next(alloc, authority, request, reply) {
            Ok(()) => Ok(()),
            Err(fail) => {
                reply.clear();
                Err(fail)
            }
        }
    }

    /// Where no reply is left the answer is recorded, and stays as it is.
    fn pass(
        &mut self,
        alloc: Global,
        authority: &str,
        request: &[u8],
        reply: &mut Vec<u8>,
    ) -> Result<(), LinkFail>
        ensures gives { OnOk result (¬ IsUsedUp self.old → Gives self.old self.new authority.now request.now reply.new.items) }
        ensures keeps { OnOk result (IsUsedUp self.old → Keeps self.old self.new authority.now request.now reply.old.items
            × (reply.new.items ≡ reply.old.items)) }
        ensures not_listed { OnOk result (¬ IsListed self.old) }
        ensures failed { IsErrOf result Failed → Fails self.old self.new authority.now request.now }
        ensures listed { IsErrOf result Failed → IsListed self.old }
        ensures no_memory { IsErrOf result OutOfMemory → self.new ≡ self.old }
        ensures clear { IsUsedUp self.old → IsUsedUp self.new }
        ensures recorded { Tells (Some self.old.recorded) (Some self.new.recorded) authority.now request.now reply.new.items result }
        ensures empty { OnErr result (reply.new.items ≡ []) }
        ensures faults { HasCause self.old.faults self.new.faults (IsErrOf result Failed) }
    {
        match self.keep(alloc, authority, request, reply) {
            Ok(()) => Ok(()),
            Err(fail) => {
                reply.clear();
                Err(fail)
            }
        }
    }

    fn faults(&self) -> u64 {
        self.faults
    }
}
