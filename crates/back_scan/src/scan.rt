ghost use Rattle.std.specs.Prelude.{◌≡◌, ◌≤◌, length};

use crate::depart::is_over;
use crate::journey::rides_from;
use crate::progress::Progress;
use crate::{ArriveQuery, forward_query};
use csa_scan::{BeginFault, Guesses, RunNumbers, Walks, number_each, place_of};
use lc_model::{Connection, Connections, Journey, Moment, NoMemory, PlainData, Query, StopsDoc};
use std::alloc::Global;

/// A scan for one question. It takes connections in departure order, list by list from the last one back, and says at any
/// time the latest departure over what it took.
#[derive(Drop)]
pub struct BackScan {
    query: Query,
    doc: StopsDoc,
    walks: Walks,
    runs: RunNumbers,
    progress: Progress,
    guesses: Guesses,
    ghost one_each: { length progress.departures.items ≡ length doc.stops },
    ghost each_walk: { length walks.starts.items ≡ length doc.stops },
    ghost numbered: { length progress.alightings.items ≤ length runs },
}

impl BackScan {
    ghost use Rattle.std.specs.Prelude.{◌≡◌, ◌≤◌, ◌↔◌, [], ℕ, List, Option, Err, IfOk, OnOk, OnErr, IsTrue, length};
    ghost use Rattle.lc_model.specs.Stop.{HasStop};
    ghost use Rattle.lc_model.specs.declared.connection.Connection.{Connection};
    ghost use Rattle.lc_model.specs.declared.doc.StopsDoc.{StopsDoc};
    ghost use Rattle.lc_model.specs.declared.query.Query.{Query};
    ghost use Rattle.csa_scan.specs.Numbers.{AreDistinct, AreNumbersOf};
    ghost use Rattle.csa_scan.specs.Stands.{IsAsked};
    ghost use Rattle.csa_scan.specs.Walks.{AreWalks};
    ghost use Rattle.back_scan.specs.Forward.{forward_query};
    ghost use Rattle.back_scan.specs.Kept.{kept_of, nothing_of};
    ghost use Rattle.back_scan.specs.Latest.{IsListLatest};
    ghost use Rattle.back_scan.specs.Over.{IsOver};
    ghost use Rattle.back_scan.specs.StandsFor.{GoesBackBy, IsLatestChain, StandsFor, StaysAsItWas};
    ghost use Rattle.back_scan.specs.declared.arrive_query.TheConstants.{LONGEST_HORIZON};

    /// Begins a scan for the question. Linear in the document, times the logarithm of its stops.
    pub fn begin(alloc: Global, query: &ArriveQuery, doc: &StopsDoc) -> Result<BackScan, BeginFault>
        requires from_one { 1 ≤ query.now.horizon }
        requires up_to_a_week { query.now.horizon ≤ LONGEST_HORIZON }
        ensures ok { IfOk result (λ scan. StandsFor scan (forward_query query.now) doc.now []) }
        ensures known { OnOk result (HasStop doc.now.stops query.now.from × HasStop doc.now.stops query.now.to) }
        ensures unknown_from { result ≡ Err BeginFault.UnknownFrom → ¬ HasStop doc.now.stops query.now.from }
        ensures unknown_to { result ≡ Err BeginFault.UnknownTo → HasStop doc.now.stops query.now.from × (¬ HasStop doc.now.stops query.now.to) }
    {
        let stops = doc.stops.as_slice();
        if place_of(stops, &query.from).is_none() {
            return Err(BeginFault::UnknownFrom);
        }
        if place_of(stops, &query.to).is_none() {
            return Err(BeginFault::UnknownTo);
        }
        let query = forward_query(alloc, query)?;
        Ok(BackScan::of_nothing(alloc, query, doc)?)
    }

    /// A scan of the question, before it takes anything. The document knows both ends of the question, or the scan stands
    /// for nothing.
    fn of_nothing(alloc: Global, query: Query, doc: &StopsDoc) -> Result<BackScan, NoMemory>
        ensures { IfOk result (λ scan. IsAsked query doc.now → StandsFor scan query doc.now []) }
    {
        let walks = Walks::new(alloc, &query, doc)?;
        let doc = doc.copy(alloc)?;
        let progress = Progress::new(alloc, doc.stops.as_slice().len())?;
        BackScan::before_any(alloc, query, doc, walks, progress)
    }

    /// A scan of the question with these walks, before it takes anything.
    fn before_any(
        alloc: Global,
        query: Query,
        doc: StopsDoc,
        walks: Walks,
        progress: Progress,
    ) -> Result<BackScan, NoMemory>
        requires near { AreWalks query doc walks }
        requires nothing { kept_of progress ≡ nothing_of (length doc.stops) }
        ensures { IfOk result (λ scan. IsAsked query doc → StandsFor scan query doc []) }
    {
        let guesses = Guesses::new(alloc)?;
        let runs = RunNumbers::new(alloc);
        Ok(BackScan {
            query,
            doc,
            walks,
            runs,
            progress,
            guesses,
        })
    }

    /// Takes the connections that come before those taken so far. What arrives after the moment of the question is left out. A
    /// connection takes a constant time where guesses find its run and its stops, and where its run is not left yet a constant time
    /// for each change from its last stop. Else it takes the logarithm of the runs and of the stops.
    pub fn take_back(&mut self, alloc: Global, list: &Connections) -> Result<(), NoMemory>
        ensures ok { OnOk result (GoesBackBy self.old self.new list.now) }
        ensures err { OnErr result (StaysAsItWas self.old self.new) }
    {
        let list = list.as_slice();
        let numbers = self.prepare(alloc, list)?;
        self.progress.take_each(
            &self.query,
            &self.doc,
            &self.walks,
            &mut self.guesses,
            list,
            numbers.as_slice(),
        );
        Ok(())
    }

    /// The numbers of the connections' runs, with room for each run: taking the connections needs no memory then.
    fn prepare(&mut self, alloc: Global, list: &[Connection]) -> Result<Vec<usize>, NoMemory>
        ensures numbers { IfOk result (λ numbers. AreNumbersOf self.new.runs list.now numbers.items) }
        ensures room { OnOk result (length self.new.progress.alightings.items ≡ length self.new.runs) }
        ensures distinct { OnOk result (AreDistinct self.new.runs) }
        ensures same { StaysAsItWas self.old self.new }
    {
        let numbers = number_each(alloc, &mut self.runs, &mut self.guesses, list)?;
        self.progress.make_room(self.runs.len())?;
        Ok(numbers)
    }

    /// The latest moment at which a chain of the connections taken leaves, or none where there is no chain.
    pub fn latest(&self) -> Option<Moment>
        ensures { (query : Query) (doc : StopsDoc) (taken : List Connection) → StandsFor self.now query doc taken → IsListLatest query doc taken result }
    {
        self.progress.best.map(|start| start.leaves)
    }

    /// Whether connections that depart before the moment change nothing any more.
    pub fn done(&self, first: Moment) -> bool
        ensures { (query : Query) (doc : StopsDoc) (taken : List Connection) (latest : Option ℕ) → StandsFor self.now query doc taken → IsListLatest query doc taken latest
            → (IsTrue result ↔ IsOver query latest first) }
    {
        is_over(&self.query, self.latest(), first)
    }

    /// A chain of the connections taken that leaves as late as any, or none where there is no chain.
    pub fn journey(&self, alloc: Global) -> Result<Option<Journey>, NoMemory>
        ensures { IfOk result (λ journey. (query : Query) (doc : StopsDoc) (taken : List Connection)
            → StandsFor self.now query doc taken → IsLatestChain query doc taken journey) }
    {
        let Some(start) = self.progress.best else {
            return Ok(None);
        };
        let stops = self.doc.stops.as_slice();
        let rides = rides_from(
            alloc,
            stops,
            self.runs.as_slice(),
            self.progress.departures.as_slice(),
            start.stop,
        )?;
        let journey = self.walks.journey(alloc, stops, rides)?;
        Ok(Some(journey))
    }
}
