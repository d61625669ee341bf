ghost use Rattle.std.specs.Prelude.{◌≡◌, ◌≤◌, [], None, Some, IfOk, IsTrue, OnErr, OnOk};
ghost use Rattle.page_relay.specs.Exchanges.{KeepsReply};
ghost use Rattle.page_relay.specs.Kept.{reply_for, with_kept, with_used};

use crate::SentRequest;
use crate::keeping::is_to_keep;
use crate::memory::Memory;
use connection_uri::Base;
use http_text::HeadRoom;
use lc_model::{Bytes, NoMemory};
use std::alloc::Global;
use std::marker::Model;

/// The replies that are kept under a base.
#[derive(Drop)]
pub(crate) struct Keeper {
    base: Base,
    memory: Memory,
    room: HeadRoom,
}

impl Model for Keeper {
    ghost use Rattle.page_relay.specs.Exchanger.{KeeperState};

    ghost Value = { KeeperState };

    ghost view = { λ k. record { base = k.base; memory = k.memory } };
}

impl Keeper {
    /// No reply yet, and so many at most.
    pub(crate) fn new(alloc: Global, base: Base, entries: usize) -> Result<Keeper, NoMemory>
        requires { 1 ≤ entries }
        ensures { IfOk result (λ keeper. keeper ≡ record { base = base; memory = record { entries = entries; kept = [] } }) }
    {
        let memory = Memory::with_capacity(alloc, entries)?;
        let room = HeadRoom::new(alloc)?;
        Ok(Keeper { base, memory, room })
    }

    /// Puts the reply that is kept for a request in the place of what `reply` holds, and says whether there is one. It was used then.
    /// Linear in that reply and in the request.
    pub(crate) fn answer(
        &mut self,
        sent: &SentRequest,
        reply: &mut Vec<u8>,
    ) -> Result<bool, NoMemory>
        ensures answered { IfOk result (λ answered. IsTrue answered → reply_for sent.now self.old.memory.kept ≡ Some reply.new.items) }
        ensures used { IfOk result (λ answered. IsTrue answered
            → self.new ≡ record self.old { memory = record self.old.memory { kept = with_used sent.now self.old.memory.kept } }) }
        ensures none { IfOk result (λ answered. ¬ (IsTrue answered) → reply_for sent.now self.old.memory.kept ≡ None) }
        ensures not_used { IfOk result (λ answered. ¬ (IsTrue answered) → self.new ≡ self.old) }
        ensures unchanged { OnErr result (self.new ≡ self.old) }
    {
        if !put_kept(&self.memory, sent, reply)? {
            return Ok(false);
        }
        self.memory.touch(sent);
        Ok(true)
    }

    /// Keeps a reply where it has to be kept. Linear in the reply.
    pub(crate) fn keep(
        &mut self,
        alloc: Global,
        sent: SentRequest,
        reply: &[u8],
    ) -> Result<(), NoMemory>
        requires { reply_for sent self.old.memory.kept ≡ None }
        ensures kept { OnOk result (KeepsReply self.old.base self.old.memory.entries self.old.memory.kept sent reply.now self.new.memory.kept) }
        ensures rest { self.new ≡ record self.old { memory = record self.old.memory { kept = self.new.memory.kept } } }
        ensures unchanged { OnErr result (self.new ≡ self.old) }
    {
        if is_to_keep(
            alloc,
            &mut self.room,
            &self.base,
            sent.request.as_slice(),
            reply,
        )? {
            put(alloc, &mut self.memory, sent, reply)?;
        }
        Ok(())
    }
}

/// Puts the reply that is kept for a request in the place of what `reply` holds, and says whether there is one.
fn put_kept(memory: &Memory, sent: &SentRequest, reply: &mut Vec<u8>) -> Result<bool, NoMemory>
    ensures kept { IfOk result (λ kept. IsTrue kept → reply_for sent.now memory.now.kept ≡ Some reply.new.items) }
    ensures none { IfOk result (λ kept. ¬ (IsTrue kept) → reply_for sent.now memory.now.kept ≡ None) }
{
    let Some(kept) = memory.find(sent) else {
        return Ok(false);
    };
    reply.clear();
    reply.extend_from_slice(kept.as_slice())?;
    Ok(true)
}

/// Keeps a copy of a reply in front.
fn put(alloc: Global, memory: &mut Memory, sent: SentRequest, reply: &[u8]) -> Result<(), NoMemory>
    requires { reply_for sent memory.old.kept ≡ None }
    ensures put { OnOk result (memory.new ≡ record memory.old { kept = with_kept memory.old.entries sent reply.now memory.old.kept }) }
    ensures unchanged { OnErr result (memory.new ≡ memory.old) }
{
    let reply = Bytes::from_list(reply.to_vec(alloc)?);
    memory.put(sent, reply)
}
