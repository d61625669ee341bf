ghost use Rattle.std.specs.Prelude.{◌≡◌, ◌≤◌, ◌&&◌, false, [], Some, IfErr, IfOk, IsErrOf, OnErr, OnOk};
ghost use Rattle.connection_uri.specs.Base.{BaseParts};
ghost use Rattle.lc_io.specs.Counts.{HasCause, one_more};
ghost use Rattle.lc_world.specs.Link.{Exchanges, IsGet, IsHonestWith, Tells};
ghost use Rattle.lc_world.specs.declared.link.LinkFail.TheVariants.{Failed};
ghost use Rattle.page_relay.specs.Exchanges.{AsksBelow, IsKeptAfter, reply_of};
ghost use Rattle.page_relay.specs.Exchanger.{exchanger_seen};
ghost use Rattle.page_relay.specs.Kept.{reply_for, sent_to};
ghost use Rattle.page_relay.specs.Relay.{HasRelayedOf, new_relay, relay_seen, transcript_in};
ghost use Rattle.page_relay.specs.Recorded.{Records, known_of};
ghost use Rattle.lc_world.specs.Sides.Side.{Side};

use crate::SentRequest;
use crate::exchanger::Exchanger;
use crate::transcript::Transcript;
use connection_uri::Base;
use lc_model::NoMemory;
use lc_world::{Link, LinkFail};
use std::alloc::Global;
use std::marker::Model;
use std::snapshot::Snapshot;

/// The most replies that a relay may keep.
pub const MOST_ENTRIES: usize = 1_000;

/// A link over a link that keeps replies: pages at their versions and the stops document, as they are under its base. A request of which it
/// keeps the reply it answers itself, and each other one it hands on to the link below. It takes memory for what it keeps alone.
#[derive(Drop)]
pub struct Relay<L: Link> {
    exchanger: Exchanger<L>,
    /// The link below as it was when the relay was made, for proofs.
    made: Snapshot<L>,
    transcript: Transcript,
    relayed: u64,
    /// Whether both counts are exact.
    exact: bool,
}

impl<L: Link> Model for Relay<L> {
    ghost use Rattle.page_relay.specs.Relay.{RelayState};
    ghost use Rattle.page_relay.specs.Recorded.{HasRelayed};

    ghost Value = { RelayState L };

    ghost view = { λ r. record { exchanger = r.exchanger; made = r.made.value; recorded = r.transcript; relayed = r.relayed; exact = r.exact } };

    ghost invariant = { λ r. HasRelayed r.exchanger.base r.exchanger.memory.entries (L.seen r.made.value).recorded (L.seen r.exchanger.inner).recorded
        r.exchanger.memory.kept r.transcript r.relayed r.exchanger.forwarded r.exact };
}

impl<L: Link> Relay<L> {
    /// A relay that keeps nothing yet, and so many replies at most, from 1 to 1,000. Where memory runs out the link is given back.
    pub fn new(alloc: Global, inner: L, base: Base, entries: usize) -> Result<Relay<L>, L>
        requires some { 1 ≤ entries }
        requires most { entries ≤ 1_000 }
        ensures new { IfOk result (λ relay. relay ≡ new_relay inner base entries) }
        ensures back { IfErr result (λ link. link ≡ inner) }
    {
        let made = Snapshot::of(&inner);
        match Exchanger::new(alloc, inner, base, entries) {
            Ok(exchanger) => Ok(Relay {
                exchanger,
                made,
                transcript: Transcript::new(),
                relayed: 0,
                exact: true,
            }),
            Err(inner) => Err(inner),
        }
    }

    /// The link below, as the calls left it.
    pub fn into_inner(self) -> L
        ensures { result ≡ self.exchanger.inner }
    {
        self.exchanger.into_inner()
    }

    /// How many exchanges were asked for.
    pub fn relayed(&self) -> u64
        ensures { result ≡ self.now.relayed }
    {
        self.relayed
    }

    /// How many exchanges were handed on to the link below.
    pub fn forwarded(&self) -> u64
        ensures { result ≡ self.now.exchanger.forwarded }
    {
        self.exchanger.forwarded()
    }

    /// Whether both counts are exact: memory has not run out in an exchange, and no answer was handed on.
    pub fn is_exact(&self) -> bool
        ensures exact { result ≡ self.now.exact }
        ensures has { HasRelayedOf L.seen self.now }
    {
        self.exact
    }

    /// What `exchange` does, with `reply` as it comes after an error.
    fn relay(
        &mut self,
        alloc: Global,
        authority: &str,
        request: &[u8],
        reply: &mut Vec<u8>,
    ) -> Result<(), LinkFail>
        ensures kept { IsKeptAfter self.old.exchanger.base self.old.exchanger.memory.entries self.old.exchanger.memory.kept
            (record { sent = sent_to authority.now request.now; reply = reply_of result reply.new.items }) self.new.exchanger.memory.kept }
        ensures below { AsksBelow L.seen self.old.exchanger.inner self.new.exchanger.inner self.old.exchanger.forwarded self.new.exchanger.forwarded
            authority.now request.now (reply_for (sent_to authority.now request.now) self.old.exchanger.memory.kept) reply.new.items result }
        ensures records { Records self.old.recorded self.new.recorded authority.now request.now reply.new.items result }
        ensures rest { self.new ≡ record self.old {
          exchanger = record self.old.exchanger {
            inner = self.new.exchanger.inner;
            memory = record self.old.exchanger.memory { kept = self.new.exchanger.memory.kept };
            forwarded = self.new.exchanger.forwarded;
          };
          recorded = self.new.recorded;
          relayed = one_more self.old.relayed;
          exact = self.new.exact;
        } }
        ensures exact { self.new.exact ≡ (known_of result && self.old.exact) }
        ensures honest { (base : BaseParts) (side : Side) → IsGet request.now → IsHonestWith (relay_seen L.seen self.old) base side
            → Exchanges (relay_seen L.seen self.old) (relay_seen L.seen self.new) base side request.now reply.new.items result }
        ensures clear { (L.seen self.old.exchanger.inner).clear → (L.seen self.new.exchanger.inner).clear }
        ensures still { (L.seen self.old.exchanger.inner).still → (L.seen self.new.exchanger.inner).still }
        ensures side { (L.seen self.old.exchanger.inner).still → IsGet request.now
            → (L.seen self.new.exchanger.inner).side ≡ (L.seen self.old.exchanger.inner).side }
        ensures behind { L.behind self.new.exchanger.inner ≡ L.behind self.old.exchanger.inner }
        ensures faults { HasCause (L.seen self.old.exchanger.inner).faults (L.seen self.new.exchanger.inner).faults (IsErrOf result Failed) }
    {
        self.relayed = self.relayed.saturating_add(1);
        let result = recorded_exchange(
            alloc,
            &mut self.exchanger,
            &mut self.transcript,
            authority,
            request,
            reply,
        );
        self.exact = stays_exact(self.exact, &result);
        result
    }

    /// What `pass` does, with `reply` as it comes after an error.
    fn pass_on(
        &mut self,
        alloc: Global,
        authority: &str,
        request: &[u8],
        reply: &mut Vec<u8>,
    ) -> Result<(), LinkFail>
        ensures records { Records self.old.recorded self.new.recorded authority.now request.now reply.new.items result }
        ensures rest { self.new ≡ record self.old {
          exchanger = record self.old.exchanger { inner = self.new.exchanger.inner };
          recorded = self.new.recorded;
          exact = false;
        } }
        ensures side { (L.seen self.new.exchanger.inner).side ≡ (L.seen self.old.exchanger.inner).side }
        ensures behind { L.behind self.new.exchanger.inner ≡ L.behind self.old.exchanger.inner }
        ensures honest { (base : BaseParts) → (relay_seen L.seen self.old).honest base → (relay_seen L.seen self.new).honest base }
        ensures quiet { (base : BaseParts) → (L.seen self.old.exchanger.inner).quiet base → (L.seen self.new.exchanger.inner).quiet base }
        ensures clear { (L.seen self.old.exchanger.inner).clear → (L.seen self.new.exchanger.inner).clear }
        ensures still { (L.seen self.old.exchanger.inner).still → (L.seen self.new.exchanger.inner).still }
        ensures answer { OnOk result ((L.seen self.old.exchanger.inner).clear → reply.new.items ≡ reply.old.items) }
        ensures faults { HasCause (L.seen self.old.exchanger.inner).faults (L.seen self.new.exchanger.inner).faults (IsErrOf result Failed) }
    {
        self.exact = false;
        recorded_pass(
            alloc,
            &mut self.exchanger,
            &mut self.transcript,
            authority,
            request,
            reply,
        )
    }
}

/// Whether counts that were exact are so after an exchange with this result. Where memory ran out the link below may have recorded it or not.
fn stays_exact(exact: bool, ended: &Result<(), LinkFail>) -> bool
    ensures { result ≡ (known_of ended.now && exact) }
{
    exact && !matches!(ended, Err(LinkFail::NoMemory))
}

/// Makes an exchange, and records it.
fn recorded_exchange<L: Link>(
    alloc: Global,
    exchanger: &mut Exchanger<L>,
    transcript: &mut Transcript,
    authority: &str,
    request: &[u8],
    reply: &mut Vec<u8>,
) -> Result<(), LinkFail>
    ensures kept { IsKeptAfter exchanger.old.base exchanger.old.memory.entries exchanger.old.memory.kept
        (record { sent = sent_to authority.now request.now; reply = reply_of result reply.new.items }) exchanger.new.memory.kept }
    ensures below { AsksBelow L.seen exchanger.old.inner exchanger.new.inner exchanger.old.forwarded exchanger.new.forwarded authority.now request.now
        (reply_for (sent_to authority.now request.now) exchanger.old.memory.kept) reply.new.items result }
    ensures records { Records transcript.old transcript.new authority.now request.now reply.new.items result }
    ensures rest { exchanger.new ≡ record exchanger.old {
      inner = exchanger.new.inner;
      memory = record exchanger.old.memory { kept = exchanger.new.memory.kept };
      forwarded = exchanger.new.forwarded;
    } }
    ensures honest { (base : BaseParts) (side : Side) → IsGet request.now → IsHonestWith (exchanger_seen L.seen exchanger.old) base side
        → Exchanges (exchanger_seen L.seen exchanger.old) (exchanger_seen L.seen exchanger.new) base side request.now reply.new.items result }
    ensures clear { (L.seen exchanger.old.inner).clear → (L.seen exchanger.new.inner).clear }
    ensures still { (L.seen exchanger.old.inner).still → (L.seen exchanger.new.inner).still }
    ensures side { (L.seen exchanger.old.inner).still → IsGet request.now → (L.seen exchanger.new.inner).side ≡ (L.seen exchanger.old.inner).side }
    ensures behind { L.behind exchanger.new.inner ≡ L.behind exchanger.old.inner }
    ensures faults { HasCause (L.seen exchanger.old.inner).faults (L.seen exchanger.new.inner).faults (IsErrOf result Failed) }
{
    let sent = SentRequest::new(alloc, authority, request)?;
    let asked = Snapshot::of(&sent);
    let result = exchanger.exchange(alloc, sent, reply);
    transcript.add(asked, &result, reply);
    result
}

/// Hands on an answer, and records it.
fn recorded_pass<L: Link>(
    alloc: Global,
    exchanger: &mut Exchanger<L>,
    transcript: &mut Transcript,
    authority: &str,
    request: &[u8],
    reply: &mut Vec<u8>,
) -> Result<(), LinkFail>
    ensures below { Tells (L.seen exchanger.old.inner).recorded (L.seen exchanger.new.inner).recorded authority.now request.now reply.new.items result }
    ensures records { Records transcript.old transcript.new authority.now request.now reply.new.items result }
    ensures rest { exchanger.new ≡ record exchanger.old { inner = exchanger.new.inner } }
    ensures side { (L.seen exchanger.new.inner).side ≡ (L.seen exchanger.old.inner).side }
    ensures behind { L.behind exchanger.new.inner ≡ L.behind exchanger.old.inner }
    ensures honest { (base : BaseParts) → (exchanger_seen L.seen exchanger.old).honest base → (exchanger_seen L.seen exchanger.new).honest base }
    ensures quiet { (base : BaseParts) → (L.seen exchanger.old.inner).quiet base → (L.seen exchanger.new.inner).quiet base }
    ensures clear { (L.seen exchanger.old.inner).clear → (L.seen exchanger.new.inner).clear }
    ensures still { (L.seen exchanger.old.inner).still → (L.seen exchanger.new.inner).still }
    ensures answer { OnOk result ((L.seen exchanger.old.inner).clear → reply.new.items ≡ reply.old.items) }
    ensures faults { HasCause (L.seen exchanger.old.inner).faults (L.seen exchanger.new.inner).faults (IsErrOf result Failed) }
{
    let sent = SentRequest::new(alloc, authority, request)?;
    let asked = Snapshot::of(&sent);
    let result = exchanger.pass(alloc, authority, request, reply);
    transcript.add(asked, &result, reply);
    result
}

impl<L: Link> Link for Relay<L> {
    ghost behind = { λ r. L.behind r.exchanger.inner };

    ghost use Rattle.page_relay.specs.Relay.{relay_seen};

    /// It has the side and the count of the link below. It records its own exchanges with their replies, after how it was made and what that link
    /// had recorded then.
    ghost seen = { relay_seen L.seen };

    /// Linear in the request and in the reply, whatever is kept, besides what the link below takes.
    fn exchange(
        &mut self,
        alloc: Global,
        authority: &str,
        request: &[u8],
        reply: &mut Vec<u8>,
    ) -> Result<(), LinkFail>
        // A kept reply is given, and was used; one that came is kept where it has to be; and nothing changes where there was none.
        ensures kept { IsKeptAfter self.old.exchanger.base self.old.exchanger.memory.entries self.old.exchanger.memory.kept
            (record { sent = sent_to authority.now request.now; reply = reply_of result reply.new.items }) self.new.exchanger.memory.kept }
        // The link below is asked where the reply is not kept, and nowhere else.
        ensures below { AsksBelow L.seen self.old.exchanger.inner self.new.exchanger.inner self.old.exchanger.forwarded self.new.exchanger.forwarded
            authority.now request.now (reply_for (sent_to authority.now request.now) self.old.exchanger.memory.kept) reply.new.items result }
        ensures records { Records self.old.recorded self.new.recorded authority.now request.now reply.new.items result }
        ensures rest { self.new ≡ record self.old {
          exchanger = record self.old.exchanger {
            inner = self.new.exchanger.inner;
            memory = record self.old.exchanger.memory { kept = self.new.exchanger.memory.kept };
            forwarded = self.new.exchanger.forwarded;
          };
          recorded = self.new.recorded;
          relayed = one_more self.old.relayed;
          exact = self.new.exact;
        } }
        ensures exact { self.new.exact ≡ (known_of result && self.old.exact) }
        ensures honest { (base : BaseParts) (side : Side) → IsGet request.now → IsHonestWith (relay_seen L.seen self.old) base side
            → Exchanges (relay_seen L.seen self.old) (relay_seen L.seen self.new) base side request.now reply.new.items result }
        ensures clear { (L.seen self.old.exchanger.inner).clear → (L.seen self.new.exchanger.inner).clear }
        ensures still { (L.seen self.old.exchanger.inner).still → (L.seen self.new.exchanger.inner).still }
        ensures side { (L.seen self.old.exchanger.inner).still → IsGet request.now
            → (L.seen self.new.exchanger.inner).side ≡ (L.seen self.old.exchanger.inner).side }
        ensures behind { L.behind self.new.exchanger.inner ≡ L.behind self.old.exchanger.inner }
        ensures recorded { Tells (Some (transcript_in L.seen self.old)) (Some (transcript_in L.seen self.new)) authority.now request.now reply.new.items result }
        ensures empty { OnErr result (reply.new.items ≡ []) }
        ensures faults { HasCause (L.seen self.old.exchanger.inner).faults (L.seen self.new.exchanger.inner).faults (IsErrOf result Failed) }
    {
        match self.relay(alloc, authority, request, reply) {
            Ok(()) => Ok(()),
            Err(fail) => {
                reply.clear();
                Err(fail)
            }
        }
    }

    /// It records the exchange, and hands it on. It keeps nothing of it.
    fn pass(
        &mut self,
        alloc: Global,
        authority: &str,
        request: &[u8],
        reply: &mut Vec<u8>,
    ) -> Result<(), LinkFail>
        ensures records { Records self.old.recorded self.new.recorded authority.now request.now reply.new.items result }
        ensures rest { self.new ≡ record self.old {
          exchanger = record self.old.exchanger { inner = self.new.exchanger.inner };
          recorded = self.new.recorded;
          exact = false;
        } }
        ensures side { (L.seen self.new.exchanger.inner).side ≡ (L.seen self.old.exchanger.inner).side }
        ensures behind { L.behind self.new.exchanger.inner ≡ L.behind self.old.exchanger.inner }
        ensures honest { (base : BaseParts) → (relay_seen L.seen self.old).honest base → (relay_seen L.seen self.new).honest base }
        ensures quiet { (base : BaseParts) → (L.seen self.old.exchanger.inner).quiet base → (L.seen self.new.exchanger.inner).quiet base }
        ensures clear { (L.seen self.old.exchanger.inner).clear → (L.seen self.new.exchanger.inner).clear }
        ensures still { (L.seen self.old.exchanger.inner).still → (L.seen self.new.exchanger.inner).still }
        ensures answer { OnOk result ((L.seen self.old.exchanger.inner).clear → reply.new.items ≡ reply.old.items) }
        ensures recorded { Tells (Some (transcript_in L.seen self.old)) (Some (transcript_in L.seen self.new)) authority.now request.now reply.new.items result }
        ensures empty { OnErr result (reply.new.items ≡ []) }
        ensures faults { HasCause (L.seen self.old.exchanger.inner).faults (L.seen self.new.exchanger.inner).faults (IsErrOf result Failed) }
    {
        match self.pass_on(alloc, authority, request, reply) {
            Ok(()) => Ok(()),
            Err(fail) => {
                reply.clear();
                Err(fail)
            }
        }
    }

    fn faults(&self) -> u64 {
        self.exchanger.faults()
    }
}
