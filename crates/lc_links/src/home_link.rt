ghost use Rattle.std.specs.Prelude.{◌≡◌};

use crate::LocalLink;
use fragmenter::Fragmenter;
use lc_world::{Link, LinkFail};
use publisher::Publisher;
use std::alloc::Global;
use std::marker::Model;

/// A link at which an in-process publisher answers, and each answer is handed on to another link.
#[derive(Drop)]
pub struct HomeLink<G: Fragmenter + Drop, L: Link> {
    local: LocalLink<G>,
    outer: L,
}

impl<G: Fragmenter + Drop, L: Link> Model for HomeLink<G, L> {
    ghost use Rattle.lc_links.specs.HomeLink.{HomeLinkState};

    ghost Value = { HomeLinkState G L };

    ghost view = { λ h. record { local = h.local; outer = h.outer } };
}

impl<G: Fragmenter + Drop, L: Link> HomeLink<G, L> {
    ghost use Rattle.std.specs.Borrow.{Lends, sem};
    ghost use Rattle.lc_links.specs.contracts.home_link.HomeLink.{the_row};
    ghost use Rattle.publisher.specs.contracts.publisher.Publisher.{the_row as publisher_row};

    /// A link to the publisher, whose answers are handed on to the outer link.
    pub fn new(local: LocalLink<G>, outer: L) -> HomeLink<G, L>
        ensures { result ≡ record { local = local; outer = outer } }
    {
        HomeLink { local, outer }
    }

    /// The publisher, lent: what it is left as is what answers from then on.
    pub fn publisher(&mut self) -> &mut Publisher<G>
        ensures* writes_back { sem 𝓛 (Lends (the_row G.row L.row G.Fragmenter L.Link) (publisher_row G.row G.Fragmenter) self.entry result
            (λ publisher. record self.old { local = record self.old.local { publisher = publisher } })) }
        ensures value { result.now ≡ self.old.local.publisher }
    {
        self.local.publisher()
    }

    /// The outer link, as the calls left it.
    pub fn into_outer(self) -> L
        ensures { result ≡ self.outer }
    {
        let HomeLink { local, outer } = self;
        // Its publisher ends in there. To end it here would make the proof long.
        drop(local);
        outer
    }
}

impl<G: Fragmenter + Drop, L: Link> Link for HomeLink<G, L> {
    ghost use Rattle.std.specs.Prelude.{Some};
    ghost use Rattle.publisher.specs.Held.{side_of};

    ghost behind = { λ h. (L.seen h.outer).side };

    /// It records the side of its publisher, and the outer link's record of exchanges. It is honest where the outer link is clear, and its
    /// side stays at a GET whatever the outer link does.
    ghost seen = { λ h. record {
      side = Some (side_of G.cuts_of h.local.publisher);
      recorded = (L.seen h.outer).recorded;
      honest = λ _. (L.seen h.outer).clear;
      quiet = λ _. (L.seen h.outer).clear;
      clear = (L.seen h.outer).clear;
      still = Unit {0};
      faults = (L.seen h.outer).faults;
    } };

    fn exchange(
        &mut self,
        alloc: Global,
        authority: &str,
        request: &[u8],
        reply: &mut Vec<u8>,
    ) -> Result<(), LinkFail> {
        match self.local.exchange(alloc, authority, request, reply) {
            Ok(()) => self.outer.pass(alloc, authority, request, reply),
            Err(_) => Err(LinkFail::NoMemory),
        }
    }

    fn pass(
        &mut self,
        alloc: Global,
        authority: &str,
        request: &[u8],
        reply: &mut Vec<u8>,
    ) -> Result<(), LinkFail> {
        self.outer.pass(alloc, authority, request, reply)
    }

    fn faults(&self) -> u64 {
        self.outer.faults()
    }
}
