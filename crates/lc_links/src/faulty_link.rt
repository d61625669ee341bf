ghost use Rattle.std.specs.Prelude.{◌≡◌, ◌≤◌, ◌↔◌, [], Contains, None, OnErr, OnOk, IsErrOf, IsTrue};
ghost use Rattle.connection_uri.specs.Base.{BaseParts};
ghost use Rattle.lc_io.specs.Counts.{Counts, HasCause, Rose, one_more};
ghost use Rattle.lc_links.specs.FaultyLink.{Reaches};
ghost use Rattle.lc_world.specs.Link.{Exchanges, IsGet, IsHonestWith, Tells};
ghost use Rattle.lc_world.specs.declared.link.LinkFail.TheVariants.{Failed};
ghost use Rattle.lc_world.specs.Sides.Side.{Side};

use lc_world::{Link, LinkFail};
use std::alloc::Global;
use std::marker::Model;

/// A link over another one, of which some calls fail without reaching the other.
#[derive(Drop)]
pub struct FaultyLink<L: Link> {
    inner: L,
    fails: Vec<u64>,
    calls: u64,
    faults: u64,
}

impl<L: Link> Model for FaultyLink<L> {
    ghost use Rattle.lc_links.specs.FaultyLink.{FaultyLinkState};

    ghost Value = { FaultyLinkState L };

    ghost view = { λ f. record { inner = f.inner; fails = f.fails.items; calls = f.calls; faults = f.faults } };
}

impl<L: Link> FaultyLink<L> {
    /// A link of which the calls with these numbers fail, exchanges and those that hand on together, from 1.
    pub fn new(inner: L, fails: Vec<u64>) -> FaultyLink<L>
        ensures { result ≡ record { inner = inner; fails = fails.items; calls = 0; faults = 0 } }
    {
        FaultyLink {
            inner,
            fails,
            calls: 0,
            faults: 0,
        }
    }
}

/// Counts a call, and says whether it is one that fails. Linear in the numbers.
fn fails_now(calls: &mut u64, fails: &[u64]) -> bool
    ensures listed { IsTrue result ↔ Contains fails.now (one_more calls.old) }
    ensures counted { calls.new ≡ one_more calls.old }
{
    *calls = calls.saturating_add(1);
    fails.contains(calls)
}

/// Counts a fault, and leaves nothing in `reply`.
fn fail(faults: &mut u64, reply: &mut Vec<u8>)
    ensures empty { reply.new.items ≡ [] }
    ensures counted { faults.new ≡ one_more faults.old }
    ensures not_fallen { faults.old ≤ faults.new }
    ensures rose { Rose faults.old faults.new }
{
    *faults = faults.saturating_add(1);
    reply.clear();
}

impl<L: Link> Link for FaultyLink<L> {
    ghost use Rattle.std.specs.Prelude.{None};

    ghost behind = { λ f. L.behind f.inner };

    /// It records the side of the other link, and no exchanges.
    ghost seen = { λ f. record {
      side = (L.seen f.inner).side;
      recorded = None;
      honest = (L.seen f.inner).honest;
      quiet = (L.seen f.inner).quiet;
      clear = (L.seen f.inner).clear;
      still = (L.seen f.inner).still;
      faults = f.faults;
    } };

    fn exchange(
        &mut self,
        alloc: Global,
        authority: &str,
        request: &[u8],
        reply: &mut Vec<u8>,
    ) -> Result<(), LinkFail>
        ensures listed { Contains self.old.fails (one_more self.old.calls) → (result ≡ Err Failed) × (self.new.inner ≡ self.old.inner) }
        ensures calls { self.new ≡ record self.old { inner = self.new.inner; calls = one_more self.old.calls; faults = self.new.faults } }
        ensures each_fault { Counts self.old.faults self.new.faults (IsErrOf result Failed) }
        // A call that is not listed reaches the other link, and fails only where that one did.
        ensures reaches { ¬ Contains self.old.fails (one_more self.old.calls) → Reaches (L.seen self.old.inner) (L.seen self.new.inner)
            authority.now request.now reply.new.items result }
        ensures honest { (base : BaseParts) (side : Side) → IsGet request.now → IsHonestWith (L.seen self.old.inner) base side
            → Exchanges (L.seen self.old.inner) (L.seen self.new.inner) base side request.now reply.new.items result }
        ensures clear { (L.seen self.old.inner).clear → (L.seen self.new.inner).clear }
        ensures still { (L.seen self.old.inner).still → (L.seen self.new.inner).still }
        ensures side { (L.seen self.old.inner).still → IsGet request.now → (L.seen self.new.inner).side ≡ (L.seen self.old.inner).side }
        ensures behind { L.behind self.new.inner ≡ L.behind self.old.inner }
        ensures recorded { Tells None None authority.now request.now reply.new.items result }
        ensures empty { OnErr result (reply.new.items ≡ []) }
        ensures faults { HasCause self.old.faults self.new.faults (IsErrOf result Failed) }
    {
        if fails_now(&mut self.calls, self.fails.as_slice()) {
            fail(&mut self.faults, reply);
            return Err(LinkFail::Failed);
        }
        match self.inner.exchange(alloc, authority, request, reply) {
            Ok(()) => Ok(()),
            Err(LinkFail::Failed) => {
                fail(&mut self.faults, reply);
                Err(LinkFail::Failed)
            }
            Err(LinkFail::NoMemory) => Err(LinkFail::NoMemory),
        }
    }

    fn pass(
        &mut self,
        alloc: Global,
        authority: &str,
        request: &[u8],
        reply: &mut Vec<u8>,
    ) -> Result<(), LinkFail>
        ensures listed { Contains self.old.fails (one_more self.old.calls) → (result ≡ Err Failed) × (self.new.inner ≡ self.old.inner) }
        ensures calls { self.new ≡ record self.old { inner = self.new.inner; calls = one_more self.old.calls; faults = self.new.faults } }
        ensures each_fault { Counts self.old.faults self.new.faults (IsErrOf result Failed) }
        // A call that is not listed reaches the other link, and fails only where that one did.
        ensures reaches { ¬ Contains self.old.fails (one_more self.old.calls) → Reaches (L.seen self.old.inner) (L.seen self.new.inner)
            authority.now request.now reply.new.items result }
        ensures side { (L.seen self.new.inner).side ≡ (L.seen self.old.inner).side }
        ensures behind { L.behind self.new.inner ≡ L.behind self.old.inner }
        ensures honest { (base : BaseParts) → (L.seen self.old.inner).honest base → (L.seen self.new.inner).honest base }
        ensures quiet { (base : BaseParts) → (L.seen self.old.inner).quiet base → (L.seen self.new.inner).quiet base }
        ensures answer { OnOk result ((L.seen self.old.inner).clear → reply.new.items ≡ reply.old.items) }
        ensures clear { (L.seen self.old.inner).clear → (L.seen self.new.inner).clear }
        ensures still { (L.seen self.old.inner).still → (L.seen self.new.inner).still }
        ensures recorded { Tells None None authority.now request.now reply.new.items result }
        ensures empty { OnErr result (reply.new.items ≡ []) }
        ensures faults { HasCause self.old.faults self.new.faults (IsErrOf result Failed) }
    {
        if fails_now(&mut self.calls, self.fails.as_slice()) {
            fail(&mut self.faults, reply);
            return Err(LinkFail::Failed);
        }
        match self.inner.pass(alloc, authority, request, reply) {
            Ok(()) => Ok(()),
            Err(LinkFail::Failed) => {
                fail(&mut self.faults, reply);
                Err(LinkFail::Failed)
            }
            Err(LinkFail::NoMemory) => Err(LinkFail::NoMemory),
        }
    }

    fn faults(&self) -> u64 {
        self.faults
    }
}
