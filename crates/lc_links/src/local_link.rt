ghost use Rattle.std.specs.Prelude.{◌≡◌, ◌⊎◌, [], ◌∷◌, ◌++◌, IfOk, OnErr, OnOk, IsErrOf, Some};
ghost use Rattle.connection_uri.specs.Base.{BaseParts};
ghost use Rattle.http_text.specs.Request.{IsWhole};
ghost use Rattle.lc_links.specs.Taking.{asked_entry};
ghost use Rattle.lc_io.specs.Counts.{HasCause, one_more};
ghost use Rattle.lc_world.specs.Link.{IsGet, IsHonest, StaysHonest, Tells};
ghost use Rattle.lc_world.specs.declared.link.LinkFail.TheVariants.{Failed, NoMemory as OutOfMemory};
ghost use Rattle.publisher.specs.Held.{side_of};
ghost use Rattle.lc_world.specs.Sides.Reply.{IsNextSide, IsReply};
ghost use Rattle.lc_world.specs.Sides.Side.{Side};

use crate::taking::{is_whole, tell};
use fragmenter::Fragmenter;
use lc_model::NoMemory;
use lc_world::{Entry, Link, LinkFail};
use publisher::Publisher;
use std::alloc::Global;
use std::marker::Model;

/// A link to an in-process publisher, whatever the authority. It never fails.
#[derive(Drop)]
pub struct LocalLink<G: Fragmenter + Drop> {
    publisher: Publisher<G>,
    recorded: Vec<Entry>,
    asked: u64,
}

impl<G: Fragmenter + Drop> Model for LocalLink<G> {
    ghost use Rattle.lc_links.specs.LocalLink.{LocalLinkState};

    ghost Value = { LocalLinkState G };

    ghost view = { λ l. record { publisher = l.publisher; recorded = l.recorded.items; asked = l.asked } };
}

impl<G: Fragmenter + Drop> LocalLink<G> {
    ghost use Rattle.std.specs.Borrow.{Lends, sem};
    ghost use Rattle.lc_links.specs.contracts.local_link.LocalLink.{the_row};
    ghost use Rattle.publisher.specs.contracts.publisher.Publisher.{the_row as publisher_row};

    /// A link to the publisher, by which nothing was asked.
    pub fn new(alloc: Global, publisher: Publisher<G>) -> Result<LocalLink<G>, NoMemory>
        ensures { IfOk result (λ link. link ≡ record { publisher = publisher; recorded = []; asked = 0 }) }
    {
        Ok(LocalLink {
            publisher,
            recorded: Vec::new(alloc),
            asked: 0,
        })
    }

    /// The publisher, lent: what it is left as is what the link has.
    pub fn publisher(&mut self) -> &mut Publisher<G>
        ensures* writes_back { sem 𝓛 (Lends (the_row G.row G.Fragmenter) (publisher_row G.row G.Fragmenter) self.entry result
            (λ publisher. record self.old { publisher = publisher })) }
        ensures value { result.now ≡ self.old.publisher }
    {
        &mut self.publisher
    }

    /// How many exchanges were asked for.
    pub fn asked(&self) -> u64
        ensures { result ≡ self.now.asked }
    {
        self.asked
    }

    /// The exchanges, without their replies, in their order.
    pub fn recorded(&self) -> &[Entry]
        ensures { result.now ≡ self.now.recorded }
    {
        self.recorded.as_slice()
    }

    /// The publisher's answer, and nothing to what is no whole request.
    fn answer(
        &mut self,
        alloc: Global,
        authority: &str,
        request: &[u8],
    ) -> Result<Vec<u8>, NoMemory>
        ensures reply { IfOk result (λ reply. IsWhole request.now → IsReply (side_of G.cuts_of self.old.publisher) request.now reply.items) }
        ensures next { OnOk result (IsWhole request.now
            → IsNextSide (side_of G.cuts_of self.old.publisher) request.now (side_of G.cuts_of self.new.publisher)) }
        ensures nothing { IfOk result (λ reply. ¬ IsWhole request.now → (reply.items ≡ []) × (self.new.publisher ≡ self.old.publisher)) }
        ensures unchanged { OnErr result (self.new.publisher ≡ self.old.publisher) }
        ensures recorded { OnOk result (self.new.recorded ≡ self.old.recorded ++ asked_entry authority.now request.now ∷ []) }
        ensures recorded_or_not { OnErr result ((self.new.recorded ≡ self.old.recorded)
            ⊎ (self.new.recorded ≡ self.old.recorded ++ asked_entry authority.now request.now ∷ [])) }
        ensures asked { self.new.asked ≡ one_more self.old.asked }
    {
        self.asked = self.asked.saturating_add(1);
        tell(alloc, &mut self.recorded, authority, request)?;
        if !is_whole(alloc, request)? {
            return Ok(Vec::new(alloc));
        }
        self.publisher.answer(alloc, request)
    }
}

impl<G: Fragmenter + Drop> Link for LocalLink<G> {
    ghost use Rattle.std.specs.Prelude.{None, Some};
    ghost use Rattle.publisher.specs.Held.{side_of};

    ghost behind = { λ _. None };

    /// It records its side, and the exchanges without their replies. Its count is always 0.
    ghost seen = { λ l. record {
      side = Some (side_of G.cuts_of l.publisher);
      recorded = Some l.recorded;
      honest = λ _. Unit {0};
      quiet = λ _. Unit {0};
      clear = Unit {0};
      still = Unit {0};
      faults = 0;
    } };

    fn exchange(
        &mut self,
        alloc: Global,
        authority: &str,
        request: &[u8],
        reply: &mut Vec<u8>,
    ) -> Result<(), LinkFail>
        ensures reply { OnOk result (IsWhole request.now → IsReply (side_of G.cuts_of self.old.publisher) request.now reply.new.items) }
        ensures next { OnOk result (IsWhole request.now
            → IsNextSide (side_of G.cuts_of self.old.publisher) request.now (side_of G.cuts_of self.new.publisher)) }
        ensures nothing { OnOk result (¬ IsWhole request.now → (reply.new.items ≡ []) × (self.new.publisher ≡ self.old.publisher)) }
        ensures unchanged { OnErr result (self.new.publisher ≡ self.old.publisher) }
        ensures never { IsErrOf result Failed → ⊥ }
        ensures asked { self.new.asked ≡ one_more self.old.asked }
        ensures honest { (base : BaseParts) (side : Side) → IsGet request.now
            → IsHonest (Some (side_of G.cuts_of self.old.publisher)) (Unit {0}) base side
            → StaysHonest base side (Unit {0}) (Some (side_of G.cuts_of self.new.publisher)) (Unit {0}) (Unit {0})
            request.now reply.new.items result }
        ensures side { IsGet request.now → side_of G.cuts_of self.new.publisher ≡ side_of G.cuts_of self.old.publisher }
        ensures recorded { Tells (Some self.old.recorded) (Some self.new.recorded) authority.now request.now reply.new.items result }
        ensures empty { OnErr result (reply.new.items ≡ []) }
        ensures faults { HasCause 0 0 (IsErrOf result Failed) }
    {
        match self.answer(alloc, authority, request) {
            Ok(answer) => {
                *reply = answer;
                Ok(())
            }
            Err(_) => {
                reply.clear();
                Err(LinkFail::NoMemory)
            }
        }
    }

    /// It records the exchange, and does nothing else.
    fn pass(
        &mut self,
        alloc: Global,
        authority: &str,
        request: &[u8],
        reply: &mut Vec<u8>,
    ) -> Result<(), LinkFail>
        ensures same { self.new ≡ record self.old { recorded = self.new.recorded } }
        ensures never { IsErrOf result Failed → ⊥ }
        ensures answer { OnOk result (reply.new.items ≡ reply.old.items) }
        ensures recorded { Tells (Some self.old.recorded) (Some self.new.recorded) authority.now request.now reply.new.items result }
        ensures empty { OnErr result (reply.new.items ≡ []) }
        ensures faults { HasCause 0 0 (IsErrOf result Failed) }
    {
        match tell(alloc, &mut self.recorded, authority, request) {
            Ok(()) => Ok(()),
            Err(_) => {
                reply.clear();
                Err(LinkFail::NoMemory)
            }
        }
    }

    fn faults(&self) -> u64 {
        0
    }
}
