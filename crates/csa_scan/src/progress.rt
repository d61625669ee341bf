ghost use Rattle.csa_scan.specs.Linked.{IsLinked};

use crate::board::{better, boarding, goal_of, is_late, new_arrival};
use crate::guesses::Guesses;
use crate::ready::relax;
use crate::trace::{Arrival, Boarding, Goal, Near, Ready};
use crate::walks::Walks;
use lc_model::{Connection, Moment, NoMemory, Query, StopsDoc};
use std::alloc::Global;

/// What a scan has found out so far.
#[derive(Drop)]
pub struct Progress {
    /// How each run is boarded first, by its number.
    pub boardings: Vec<Option<Boarding>>,
    /// From when on one may board at each stop after an arrival.
    pub ready: Vec<Option<Ready>>,
    /// The least arrival at each stop.
    pub reached: Vec<Option<Moment>>,
    /// The arrivals in their order. Each was boarded after an earlier one.
    pub arrivals: Vec<Arrival>,
    /// The least arrival at an end of the question, with the walk after it.
    pub best: Option<Goal>,
    pub ghost linked: { IsLinked boardings.items ready.items reached.items arrivals.items best },
}

impl Progress {
    ghost use Rattle.std.specs.Prelude.{◌≡◌, ◌<◌, ◌≤◌, ◌+◌, ◌⊎◌, ◌∷◌, ◌++◌, [], ℕ, List, Option, None, Some, IfOk, OnOk, length, replicate, vec_len, vec_capacity};
    ghost use Rattle.std.specs.List.{All};
    ghost use Rattle.lc_model.specs.Connection.{InDepartureOrder, NoneArrivesEarly};
    ghost use Rattle.lc_model.specs.Leg.{in_time};
    ghost use Rattle.lc_model.specs.declared.connection.Connection.{Connection};
    ghost use Rattle.lc_model.specs.declared.key.RunKey.{RunKey};
    ghost use Rattle.csa_scan.specs.Kept.{AddsRuns, HasRoom, kept_of};
    ghost use Rattle.csa_scan.specs.Linked.{IsArrivalIn};
    ghost use Rattle.csa_scan.specs.Next.{IsNext};
    ghost use Rattle.csa_scan.specs.Nothing.{nothing_of};
    ghost use Rattle.csa_scan.specs.Numbers.{AreDistinct, AreNumbersOf};
    ghost use Rattle.csa_scan.specs.Stands.{IsAsked, Stands};
    ghost use Rattle.csa_scan.specs.Takes.{Arrives};
    ghost use Rattle.csa_scan.specs.Walks.{AreWalks};

    /// Nothing is found out yet about so many stops.
    pub fn new(alloc: Global, stops: usize) -> Result<Progress, NoMemory>
        ensures { IfOk result (λ p. kept_of p ≡ nothing_of stops) }
    {
        Ok(Progress {
            boardings: Vec::new(alloc),
            ready: vec![in alloc; None; stops]?,
            reached: vec![in alloc; None; stops]?,
            arrivals: Vec::new(alloc),
            best: None,
        })
    }

    /// Keeps the arrival, with what it makes ready. There is room for it.
    pub fn arrive(&mut self, query: &Query, doc: &StopsDoc, ends: &[Option<Near>], arrival: Arrival)
        requires one_each { length self.old.ready.items ≡ length doc.now.stops }
        requires each_end { length ends.now ≡ length doc.now.stops }
        requires up_to_a_week { query.now.horizon ≤ 604_800 }
        requires within { IsArrivalIn (length self.old.ready.items) (length self.old.boardings.items) (length self.old.arrivals.items) arrival }
        requires room { vec_len self.old.arrivals < vec_capacity self.old.arrivals }
        ensures arrives { Arrives query.now doc.now ends.now arrival (kept_of self.old) (kept_of self.new) }
        ensures room { vec_capacity self.old.arrivals ≤ vec_capacity self.new.arrivals }
    {
        let place = self.arrivals.len();
        let arr = arrival.arr;
        let stop = arrival.stop;
        relax(doc, &mut self.ready, stop, arr, place);
        self.reached[stop] = Some(arr);
        let goal = goal_of(query, ends, stop, arr, place);
        self.best = better(self.best, goal);
        self.arrivals.push(arrival).unwrap();
    }

    /// Takes the connection, the next one after those that were taken. Its run has this number.
    pub fn take_one(
        &mut self,
        query: &Query,
        doc: &StopsDoc,
        walks: &Walks,
        guesses: &mut Guesses,
        connection: &Connection,
        run: usize,
    )
        requires one_each { length self.old.ready.items ≡ length doc.now.stops }
        requires each_walk { length walks.now.starts.items ≡ length doc.now.stops }
        requires up_to_a_week { query.now.horizon ≤ 604_800 }
        requires known { run < length self.old.boardings.items }
        requires room { vec_len self.old.arrivals < vec_capacity self.old.arrivals }
        ensures stands { (runs : List RunKey) (list : List Connection) → IsAsked query.now doc.now → AreWalks query.now doc.now walks.now → IsNext runs (in_time query.now list) run connection.now
            → Stands query.now doc.now runs (kept_of self.old) (in_time query.now list)
            → Stands query.now doc.now runs (kept_of self.new) (in_time query.now (list ++ connection.now ∷ [])) }
        ensures same_stops { length self.new.ready.items ≡ length self.old.ready.items }
        ensures same_runs { length self.new.boardings.items ≡ length self.old.boardings.items }
        ensures room { vec_capacity self.old.arrivals ≤ vec_capacity self.new.arrivals }
        ensures grows { vec_len self.new.arrivals ≤ vec_len self.old.arrivals + 1 }
    {
        if is_late(query, connection) {
            return;
        }
        let before = self.boardings[run];
        let starts = walks.starts.as_slice();
        let ready = self.ready.as_slice();
        let Some(boarding) = boarding(query, doc, guesses, starts, ready, before, connection) else {
            return;
        };
        let arrival = new_arrival(
            doc,
            guesses,
            self.reached.as_slice(),
            connection,
            run,
            &boarding,
        );
        self.boardings[run] = Some(boarding);
        let Some(arrival) = arrival else {
            return;
        };
        self.arrive(query, doc, walks.ends.as_slice(), arrival);
    }

    /// Makes room for so many runs, none of the new ones boarded, and so many arrivals more.
    pub fn make_room(&mut self, runs: usize, arrivals: usize) -> Result<(), NoMemory>
        requires { length self.old.boardings.items ≤ runs }
        ensures room { OnOk result (HasRoom self.new runs arrivals) }
        ensures same { AddsRuns (kept_of self.old) (kept_of self.new) }
        ensures no_more { length self.new.boardings.items ≤ runs }
    {
        self.boardings.resize(runs, None)?;
        self.arrivals.reserve(arrivals)?;
        Ok(())
    }

    /// Takes the connections in order. Their runs have these numbers, and there is room for their arrivals.
    pub fn take_each(
        &mut self,
        query: &Query,
        doc: &StopsDoc,
        walks: &Walks,
        guesses: &mut Guesses,
        list: &[Connection],
        numbers: &[usize],
    )
        requires one_each { length self.old.ready.items ≡ length doc.now.stops }
        requires each_walk { length walks.now.starts.items ≡ length doc.now.stops }
        requires up_to_a_week { query.now.horizon ≤ 604_800 }
        requires same_length { length numbers.now ≡ length list.now }
        requires known { All (λ n. n < length self.old.boardings.items) numbers.now }
        requires room { vec_len self.old.arrivals + length list.now ≤ vec_capacity self.old.arrivals }
        ensures stands { (runs : List RunKey) (taken : List Connection) → IsAsked query.now doc.now → AreWalks query.now doc.now walks.now → AreDistinct runs → AreNumbersOf runs list.now numbers.now
            → InDepartureOrder (taken ++ list.now) → NoneArrivesEarly list.now
            → Stands query.now doc.now runs (kept_of self.old) (in_time query.now taken)
            → Stands query.now doc.now runs (kept_of self.new) (in_time query.now (taken ++ list.now)) }
        ensures same_stops { length self.new.ready.items ≡ length self.old.ready.items }
        ensures same_runs { length self.new.boardings.items ≡ length self.old.boardings.items }
    {
        for (i, connection) in list.iter().enumerate() {
            self.take_one(query, doc, walks, guesses, connection, numbers[i]);
        }
    }
}
