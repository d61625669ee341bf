ghost use Rattle.std.specs.Prelude.{◌≡◌, ◌≢◌, ℕ, ◌≤◌, ◌+◌, ◌-◌, true, length, slice_get, slice_index_or, IfOk, IfSome, IsErr, OnErr, OnOk};
ghost use Rattle.std.specs.List.{All};
ghost use Rattle.std.specs.Option.{option_copied};
ghost use Rattle.lc_world.specs.GoneOn.{IsLeftByGets};
ghost use Rattle.convoy.specs.declared.turn.Turn.TheVariants as turns;

use crate::Turn;
use crate::member::Member;
use crate::turning::turned;
use connection_uri::Base;
use lc_model::{Moment, NoMemory, Query};
use lc_world::Link;
use page_client::{Client, Outcome, PageCache};
use std::alloc::Global;
use std::marker::Model;

/// Clients that ask under one base and share a cache of pages. They are numbered from 1.
#[derive(Drop)]
pub struct Convoy {
    base: Base,
    members: Vec<Member>,
    cache: PageCache,
    /// Whether memory has run out at a turn.
    spent: bool,
}

impl Model for Convoy {
    ghost use Rattle.convoy.specs.State.{ConvoyState, IsSound};

    ghost Value = { ConvoyState };

    ghost view = { λ c. record { base = c.base; members = c.members.items; kept = c.cache; spent = c.spent } };

    ghost invariant = { λ c. IsSound c.members.items c.cache c.spent };
}

impl Convoy {
    ghost use Rattle.page_client.specs.Client.{shown};
    ghost use Rattle.convoy.specs.Finish.{Ends, HasOutcome, Keeps, Rounds};
    ghost use Rattle.convoy.specs.State.{Adds, IsTurn, begun};

    /// No client yet, and a cache of so many pages at most, from 1 to 10,000.
    pub fn new(alloc: Global, base: Base, cache: usize) -> Result<Convoy, NoMemory>
        requires one { 1 ≤ cache }
        requires most { cache ≤ 10_000 }
        ensures { IfOk result (λ convoy. convoy ≡ begun base cache) }
    {
        let cache = PageCache::with_capacity(alloc, cache)?;
        Ok(Convoy {
            base,
            members: Vec::new(alloc),
            cache,
            spent: false,
        })
    }

    /// A client more, of this question. Gives its number.
    pub fn ask(&mut self, query: Query) -> Result<usize, NoMemory>
        ensures number { IfOk result (λ k. k ≡ length self.old.members + 1) }
        ensures asks { OnOk result (Adds self.old query self.new) }
        ensures unchanged { OnErr result (self.new ≡ self.old) }
    {
        let client = Client::new(query);
        self.members.push(Member {
            client,
            exchanges: 0,
        })?;
        Ok(self.members.len())
    }

    /// Client k takes the reply to what it wants, or a cached page. Once memory has run out at a turn there are no turns any more.
    pub fn turn<L: Link>(&mut self, alloc: Global, k: usize, link: &mut L) -> Result<Turn, NoMemory>
        requires from_one { 1 ≤ k }
        requires clients { k ≤ length self.old.members }
        ensures turned { IfOk result (IsTurn self.old self.new k (L.seen link.old) (L.seen link.new)) }
        ensures idle { IfOk result (λ turn. turn ≢ turns.Exchanged → link.new ≡ link.old) }
        ensures spent { OnErr result (self.new.spent ≡ true) }
        ensures stays_spent { self.old.spent ≡ true → IsErr result × (self.new ≡ self.old) × (link.new ≡ link.old) }
        ensures left { IsLeftByGets (L.seen link.old) (L.seen link.new) }
        ensures behind { L.behind link.new ≡ L.behind link.old }
    {
        if self.spent {
            return Err(NoMemory);
        }
        match turned(
            alloc,
            &self.base,
            &mut self.members[k - 1],
            &mut self.cache,
            link,
        ) {
            Ok(turn) => Ok(turn),
            Err(NoMemory) => {
                self.spent = true;
                Err(NoMemory)
            }
        }
    }

    /// Turns client 1 until it has an outcome, then client 2, and so on. A client has `horizon + 3` turns at most.
    pub fn finish<L: Link>(&mut self, alloc: Global, link: &mut L) -> Result<(), NoMemory>
        ensures rounds { OnOk result (Rounds L.seen (length self.old.members) self.old self.new link.old link.new) }
        ensures ended { OnOk result (All HasOutcome self.new.members) }
        ensures keeps { OnOk result (Keeps self.old self.new) }
        ensures spent { OnErr result (self.new.spent ≡ true) }
        ensures stays_spent { self.old.spent ≡ true → IsErr result × (self.new ≡ self.old) × (link.new ≡ link.old) }
        ensures left { IsLeftByGets (L.seen link.old) (L.seen link.new) }
        ensures behind { L.behind link.new ≡ L.behind link.old }
    {
        if self.is_spent() {
            return Err(NoMemory);
        }
        for index in 0..self.clients() {
            self.finish_client(alloc, index + 1, link)?;
        }
        Ok(())
    }

    /// Turns client k until it has an outcome.
    fn finish_client<L: Link>(
        &mut self,
        alloc: Global,
        k: usize,
        link: &mut L,
    ) -> Result<(), NoMemory>
        requires from_one { 1 ≤ k }
        requires clients { k ≤ length self.old.members }
        ensures ends { OnOk result (Ends L.seen k self.old self.new link.old link.new) }
        ensures others { OnOk result ((j : ℕ) (d : Member) → j ≢ k - 1 → slice_index_or self.new.members j d ≡ slice_index_or self.old.members j d) }
        ensures keeps { OnOk result (Keeps self.old self.new) }
        ensures spent { OnErr result (self.new.spent ≡ true) }
        ensures left { IsLeftByGets (L.seen link.old) (L.seen link.new) }
        ensures behind { L.behind link.new ≡ L.behind link.old }
    {
        while self.outcome(k).is_none() {
            self.turn(alloc, k, link)?;
        }
        Ok(())
    }

    fn is_spent(&self) -> bool
        ensures { result ≡ self.now.spent }
    {
        self.spent
    }

    /// How client k ended; none where it has not.
    pub fn outcome(&self, k: usize) -> Option<&Outcome>
        requires from_one { 1 ≤ k }
        requires clients { k ≤ length self.now.members }
        ensures { IfSome (slice_get self.now.members (k - 1)) (λ m. option_copied result ≡ (shown m.client).outcome) }
    {
        self.members[k - 1].client.outcome()
    }

    /// How client k ended, taken out of the convoy.
    pub fn into_outcome(self, k: usize) -> Option<Outcome>
        requires from_one { 1 ≤ k }
        requires clients { k ≤ length self.members }
        ensures { IfSome (slice_get self.members (k - 1)) (λ m. result ≡ (shown m.client).outcome) }
    {
        let mut members = self.members;
        members.swap_remove(k - 1).client.into_outcome()
    }

    /// The clients, in the order of their numbers, taken out of the convoy.
    pub fn into_members(self) -> Vec<Member>
        ensures { result.items ≡ self.members }
    {
        self.members
    }

    /// The version that the time gate named to client k; none before.
    pub fn version(&self, k: usize) -> Option<Moment>
        requires from_one { 1 ≤ k }
        requires clients { k ≤ length self.now.members }
        ensures { IfSome (slice_get self.now.members (k - 1)) (λ m. result ≡ (shown m.client).version) }
    {
        self.members[k - 1].client.version()
    }

    /// How many exchanges client k has made, those that failed too.
    pub fn exchanges(&self, k: usize) -> u64
        requires from_one { 1 ≤ k }
        requires clients { k ≤ length self.now.members }
        ensures count { IfSome (slice_get self.now.members (k - 1)) (λ m. result ≡ m.exchanges) }
        ensures most { IfSome (slice_get self.now.members (k - 1)) (λ m. result ≤ (shown m.client).query.horizon + 3) }
    {
        self.members[k - 1].exchanges
    }

    pub fn clients(&self) -> usize
        ensures { result ≡ length self.now.members }
    {
        self.members.len()
    }
}
