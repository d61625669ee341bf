ghost use Rattle.std.specs.Prelude.{◌≡◌, ◌≤◌, [], None, IfErr, IfOk, IsErrOf, OnErr, OnOk};
ghost use Rattle.connection_uri.specs.Base.{BaseParts};
ghost use Rattle.lc_io.specs.Counts.{HasCause};
ghost use Rattle.lc_world.specs.Link.{Exchanges, IsGet, IsHonestWith, Tells};
ghost use Rattle.lc_world.specs.declared.link.LinkFail.TheVariants.{Failed};
ghost use Rattle.page_relay.specs.Exchanges.{AsksBelow, GoesOn, IsKeptAfter, reply_of};
ghost use Rattle.page_relay.specs.Exchanger.{exchanger_seen, new_exchanger};
ghost use Rattle.page_relay.specs.Kept.{reply_for};
ghost use Rattle.lc_world.specs.Sides.Side.{Side};

use crate::SentRequest;
use crate::keeper::Keeper;
use connection_uri::Base;
use lc_model::NoMemory;
use lc_world::{Link, LinkFail};
use std::alloc::Global;
use std::marker::Model;

/// A link, the replies that are kept of it, and how many exchanges were handed on to it.
#[derive(Drop)]
pub(crate) struct Exchanger<L: Link> {
    inner: L,
    keeper: Keeper,
    forwarded: u64,
}

impl<L: Link> Model for Exchanger<L> {
    ghost use Rattle.page_relay.specs.Exchanger.{ExchangerState};

    ghost Value = { ExchangerState L };

    ghost view = { λ r. record {
      inner = r.inner;
      base = r.keeper.base;
      memory = r.keeper.memory;
      forwarded = r.forwarded;
    } };
}

impl<L: Link> Exchanger<L> {
    /// One that keeps nothing yet, and so many replies at most. Where memory runs out the link is given back.
    pub(crate) fn new(
        alloc: Global,
        inner: L,
        base: Base,
        entries: usize,
    ) -> Result<Exchanger<L>, L>
        requires { 1 ≤ entries }
        ensures new { IfOk result (λ exchanger. exchanger ≡ new_exchanger inner base entries) }
        ensures back { IfErr result (λ link. link ≡ inner) }
    {
        match Keeper::new(alloc, base, entries) {
            Ok(keeper) => Ok(Exchanger {
                inner,
                keeper,
                forwarded: 0,
            }),
            Err(NoMemory) => Err(inner),
        }
    }

    pub(crate) fn into_inner(self) -> L
        ensures { result ≡ self.inner }
    {
        let Exchanger {
            inner,
            keeper: _,
            forwarded: _,
        } = self;
        inner
    }

    pub(crate) fn forwarded(&self) -> u64
        ensures { result ≡ self.now.forwarded }
    {
        self.forwarded
    }

    /// Answers a request by what is kept, or hands it on.
    pub(crate) fn exchange(
        &mut self,
        alloc: Global,
        sent: SentRequest,
        reply: &mut Vec<u8>,
    ) -> Result<(), LinkFail>
        ensures kept { IsKeptAfter self.old.base self.old.memory.entries self.old.memory.kept
            (record { sent = sent; reply = reply_of result reply.new.items }) self.new.memory.kept }
        ensures below { AsksBelow L.seen self.old.inner self.new.inner self.old.forwarded self.new.forwarded sent.authority sent.request
            (reply_for sent self.old.memory.kept) reply.new.items result }
        ensures rest { self.new ≡ record self.old {
          inner = self.new.inner;
          memory = record self.old.memory { kept = self.new.memory.kept };
          forwarded = self.new.forwarded;
        } }
        ensures honest { (base : BaseParts) (side : Side) → IsGet sent.request → IsHonestWith (exchanger_seen L.seen self.old) base side
            → Exchanges (exchanger_seen L.seen self.old) (exchanger_seen L.seen self.new) base side sent.request reply.new.items result }
        ensures clear { (L.seen self.old.inner).clear → (L.seen self.new.inner).clear }
        ensures still { (L.seen self.old.inner).still → (L.seen self.new.inner).still }
        ensures side { (L.seen self.old.inner).still → IsGet sent.request → (L.seen self.new.inner).side ≡ (L.seen self.old.inner).side }
        ensures behind { L.behind self.new.inner ≡ L.behind self.old.inner }
        ensures faults { HasCause (L.seen self.old.inner).faults (L.seen self.new.inner).faults (IsErrOf result Failed) }
    {
        if self.keeper.answer(&sent, reply)? {
            return Ok(());
        }
        self.hand_on(alloc, sent, reply)
    }

    /// Hands an exchange on to the link below, and keeps its reply where it has to be kept.
    fn hand_on(
        &mut self,
        alloc: Global,
        sent: SentRequest,
        reply: &mut Vec<u8>,
    ) -> Result<(), LinkFail>
        requires { reply_for sent self.old.memory.kept ≡ None }
        ensures kept { GoesOn self.old.base self.old.memory.entries self.old.memory.kept sent None (reply_of result reply.new.items) self.new.memory.kept }
        ensures below { AsksBelow L.seen self.old.inner self.new.inner self.old.forwarded self.new.forwarded sent.authority sent.request
            None reply.new.items result }
        ensures rest { self.new ≡ record self.old {
          inner = self.new.inner;
          memory = record self.old.memory { kept = self.new.memory.kept };
          forwarded = self.new.forwarded;
        } }
        ensures honest { (base : BaseParts) (side : Side) → IsGet sent.request → IsHonestWith (exchanger_seen L.seen self.old) base side
            → Exchanges (exchanger_seen L.seen self.old) (exchanger_seen L.seen self.new) base side sent.request reply.new.items result }
        ensures clear { (L.seen self.old.inner).clear → (L.seen self.new.inner).clear }
        ensures still { (L.seen self.old.inner).still → (L.seen self.new.inner).still }
        ensures side { (L.seen self.old.inner).still → IsGet sent.request → (L.seen self.new.inner).side ≡ (L.seen self.old.inner).side }
        ensures behind { L.behind self.new.inner ≡ L.behind self.old.inner }
        ensures faults { HasCause (L.seen self.old.inner).faults (L.seen self.new.inner).faults (IsErrOf result Failed) }
    {
        self.forwarded = self.forwarded.saturating_add(1);
        match self.inner.exchange(
            alloc,
            sent.authority.as_str(),
            sent.request.as_slice(),
            reply,
        ) {
            Ok(()) => {
                self.keeper.keep(alloc, sent, reply.as_slice())?;
                Ok(())
            }
            Err(LinkFail::Failed) => Err(LinkFail::Failed),
            Err(LinkFail::NoMemory) => Err(LinkFail::NoMemory),
        }
    }

    /// Hands on an answer to the link below. It keeps nothing of it.
    pub(crate) fn pass(
        &mut self,
        alloc: Global,
        authority: &str,
        request: &[u8],
        reply: &mut Vec<u8>,
    ) -> Result<(), LinkFail>
        ensures rest { self.new ≡ record self.old { inner = self.new.inner } }
        ensures side { (L.seen self.new.inner).side ≡ (L.seen self.old.inner).side }
        ensures behind { L.behind self.new.inner ≡ L.behind self.old.inner }
        ensures honest { (base : BaseParts) → (exchanger_seen L.seen self.old).honest base → (exchanger_seen L.seen self.new).honest base }
        ensures quiet { (base : BaseParts) → (L.seen self.old.inner).quiet base → (L.seen self.new.inner).quiet base }
        ensures clear { (L.seen self.old.inner).clear → (L.seen self.new.inner).clear }
        ensures still { (L.seen self.old.inner).still → (L.seen self.new.inner).still }
        ensures answer { OnOk result ((L.seen self.old.inner).clear → reply.new.items ≡ reply.old.items) }
        ensures recorded { Tells (L.seen self.old.inner).recorded (L.seen self.new.inner).recorded authority.now request.now reply.new.items result }
        ensures empty { OnErr result (reply.new.items ≡ []) }
        ensures faults { HasCause (L.seen self.old.inner).faults (L.seen self.new.inner).faults (IsErrOf result Failed) }
    {
        self.inner.pass(alloc, authority, request, reply)
    }

    /// How often the link below has failed.
    pub(crate) fn faults(&self) -> u64
        ensures { result ≡ (L.seen self.now.inner).faults }
    {
        self.inner.faults()
    }
}
