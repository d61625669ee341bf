ghost use Rattle.back_scan.specs.Linked.{IsLinked};

use crate::alight::alighting;
use crate::depart::{boarding_stop, later, start_of};
use crate::trace::{Alighting, Departure, Start};
use csa_scan::{Guesses, Near, Walks, is_late};
use lc_model::{Connection, NoMemory, Query, StopsDoc};
use std::alloc::Global;

/// What a scan has found out so far.
#[derive(Drop)]
pub struct Progress {
    /// How each run is left last, by its number.
    pub alightings: Vec<Option<Alighting>>,
    /// The latest departure from each stop by which one gets to an end of the question.
    pub departures: Vec<Option<Departure>>,
    /// The latest departure from an end of the question, with the walk before it.
    pub best: Option<Start>,
    pub ghost linked: { IsLinked alightings.items departures.items best },
}

impl Progress {
    ghost use Rattle.std.specs.Prelude.{◌≡◌, ◌<◌, ◌≤◌, ◌∷◌, ◌++◌, ℕ, List, Option, None, Some, IfOk, OnOk, length};
    ghost use Rattle.std.specs.List.{All, slice_get};
    ghost use Rattle.lc_model.specs.Connection.{InDepartureOrder, NoneArrivesEarly};
    ghost use Rattle.lc_model.specs.Leg.{in_time};
    ghost use Rattle.lc_model.specs.declared.connection.Connection.{Connection};
    ghost use Rattle.lc_model.specs.declared.key.RunKey.{RunKey};
    ghost use Rattle.csa_scan.specs.Numbers.{AreDistinct, AreNumbersOf};
    ghost use Rattle.csa_scan.specs.Stands.{IsAsked};
    ghost use Rattle.csa_scan.specs.Walks.{AreWalks};
    ghost use Rattle.back_scan.specs.Before.{IsBefore};
    ghost use Rattle.back_scan.specs.Departs.{Departs};
    ghost use Rattle.back_scan.specs.Kept.{AddsRuns, kept_of, nothing_of};
    ghost use Rattle.back_scan.specs.Linked.{IsDepartureIn};
    ghost use Rattle.back_scan.specs.Stands.{Stands};

    /// Nothing is found out yet about so many stops.
    pub fn new(alloc: Global, stops: usize) -> Result<Progress, NoMemory>
        ensures { IfOk result (λ p. kept_of p ≡ nothing_of stops) }
    {
        Ok(Progress {
            alightings: Vec::new(alloc),
            departures: vec![in alloc; None; stops]?,
            best: None,
        })
    }

    /// Keeps the first departure found from the stop.
    fn depart(&mut self, query: &Query, starts: &[Option<Near>], stop: usize, departure: Departure)
        requires each_start { length starts.now ≡ length self.old.departures.items }
        requires free { slice_get self.old.departures.items stop ≡ Some None }
        requires within { IsDepartureIn (length self.old.alightings.items) self.old.departures.items departure }
        ensures { Departs query.now starts.now stop departure (kept_of self.old) (kept_of self.new) }
    {
        let dep = departure.dep;
        self.departures[stop] = Some(departure);
        let start = start_of(query, starts, stop, dep);
        self.best = later(self.best, start);
    }

    /// Takes the connection, the one before those that were taken. Its run has this number.
    pub fn take_one(
        &mut self,
        query: &Query,
        doc: &StopsDoc,
        walks: &Walks,
        guesses: &mut Guesses,
        connection: &Connection,
        run: usize,
    )
        requires one_each { length self.old.departures.items ≡ length doc.now.stops }
        requires each_walk { length walks.now.starts.items ≡ length doc.now.stops }
        requires known { run < length self.old.alightings.items }
        ensures stands { (runs : List RunKey) (list : List Connection) → IsAsked query.now doc.now → AreWalks query.now doc.now walks.now → IsBefore runs (in_time query.now list) run connection.now
            → Stands query.now doc.now runs (kept_of self.old) (in_time query.now list)
            → Stands query.now doc.now runs (kept_of self.new) (in_time query.now (connection.now ∷ list)) }
        ensures same_stops { length self.new.departures.items ≡ length self.old.departures.items }
        ensures same_runs { length self.new.alightings.items ≡ length self.old.alightings.items }
    {
        if is_late(query, connection) {
            return;
        }
        let before = self.alightings[run];
        let ends = walks.ends.as_slice();
        let departures = self.departures.as_slice();
        let Some(alighting) = alighting(query, doc, guesses, ends, departures, before, connection)
        else {
            return;
        };
        let stop = boarding_stop(
            doc,
            guesses,
            self.departures.as_slice(),
            connection,
            &alighting,
        );
        self.alightings[run] = Some(alighting);
        let Some(stop) = stop else {
            return;
        };
        // The call says the range of moments.
        let _dep = connection.dep.seconds();
        let departure = Departure {
            run,
            seq: connection.seq,
            dep: connection.dep,
            alighting,
        };
        self.depart(query, walks.starts.as_slice(), stop, departure);
    }

    /// Makes room for so many runs, none of the new ones left.
    pub fn make_room(&mut self, runs: usize) -> Result<(), NoMemory>
        requires { length self.old.alightings.items ≤ runs }
        ensures room { OnOk result (length self.new.alightings.items ≡ runs) }
        ensures same { AddsRuns (kept_of self.old) (kept_of self.new) }
        ensures no_more { length self.new.alightings.items ≤ runs }
    {
        self.alightings.resize(runs, None)?;
        Ok(())
    }

    /// Takes the connections from the last one back. Their runs have these numbers.
    pub fn take_each(
        &mut self,
        query: &Query,
        doc: &StopsDoc,
        walks: &Walks,
        guesses: &mut Guesses,
        list: &[Connection],
        numbers: &[usize],
    )
        requires one_each { length self.old.departures.items ≡ length doc.now.stops }
        requires each_walk { length walks.now.starts.items ≡ length doc.now.stops }
        requires same_length { length numbers.now ≡ length list.now }
        requires known { All (λ n. n < length self.old.alightings.items) numbers.now }
        ensures stands { (runs : List RunKey) (taken : List Connection) → IsAsked query.now doc.now → AreWalks query.now doc.now walks.now → AreDistinct runs → AreNumbersOf runs list.now numbers.now
            → InDepartureOrder (list.now ++ taken) → NoneArrivesEarly list.now
            → Stands query.now doc.now runs (kept_of self.old) (in_time query.now taken)
            → Stands query.now doc.now runs (kept_of self.new) (in_time query.now (list.now ++ taken)) }
        ensures same_stops { length self.new.departures.items ≡ length self.old.departures.items }
        ensures same_runs { length self.new.alightings.items ≡ length self.old.alightings.items }
    {
        'connections: for i in (0..list.len()).rev() {
            self.take_one(query, doc, walks, guesses, &list[i], numbers[i]);
        }
    }
}
