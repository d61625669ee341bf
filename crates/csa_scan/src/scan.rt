ghost use Rattle.std.specs.Prelude.{◌≡◌, ◌≤◌, length};

use crate::BeginFault;
use crate::board::is_over;
use crate::guesses::Guesses;
use crate::journey::rides_to;
use crate::places::place_of;
use crate::progress::Progress;
use crate::run_numbers::{RunNumbers, number_each};
use crate::walks::Walks;
use lc_model::{Connection, Connections, Journey, Moment, NoMemory, PlainData, Query, StopsDoc};
use std::alloc::Global;

/// A scan for one question. It takes connections in departure order, list by list, and says at any time the best
/// arrival over what it took.
#[derive(Drop)]
pub struct Scan {
    query: Query,
    doc: StopsDoc,
    walks: Walks,
    runs: RunNumbers,
    progress: Progress,
    guesses: Guesses,
    ghost up_to_a_week: { query.horizon ≤ 604800 },
    ghost one_each: { length progress.ready.items ≡ length doc.stops },
    ghost each_walk: { length walks.starts.items ≡ length doc.stops },
    ghost numbered: { length progress.boardings.items ≤ length runs },
}

impl Scan {
    ghost use Rattle.std.specs.Prelude.{◌≡◌, ◌≤◌, ◌↔◌, ◌++◌, ◌⊎◌, [], ℕ, List, Option, Err, IfOk, OnOk, OnErr, IsTrue, length};
    ghost use Rattle.lc_model.specs.Leg.{IsListBest};
    ghost use Rattle.lc_model.specs.Stop.{HasStop};
    ghost use Rattle.lc_model.specs.declared.connection.Connection.{Connection};
    ghost use Rattle.lc_model.specs.declared.doc.StopsDoc.{StopsDoc};
    ghost use Rattle.lc_model.specs.declared.query.Query.{Query};
    ghost use Rattle.csa_scan.specs.Done.{IsDone};
    ghost use Rattle.csa_scan.specs.Kept.{HasRoom, kept_of};
    ghost use Rattle.csa_scan.specs.Nothing.{nothing_of};
    ghost use Rattle.csa_scan.specs.Numbers.{AreDistinct, AreNumbersOf};
    ghost use Rattle.csa_scan.specs.Stands.{IsAsked};
    ghost use Rattle.csa_scan.specs.StandsFor.{GoesOnBy, IsBestChain, StandsFor, StaysAsItWas};
    ghost use Rattle.csa_scan.specs.Walks.{AreWalks};

    /// Begins a scan for the question. Linear in the document, times the logarithm of its stops.
    pub fn begin(alloc: Global, query: &Query, doc: &StopsDoc) -> Result<Scan, BeginFault>
        requires from_one { 1 ≤ query.now.horizon }
        requires up_to_a_week { query.now.horizon ≤ 604_800 }
        ensures ok { IfOk result (λ scan. StandsFor scan query.now doc.now []) }
        ensures known { OnOk result (HasStop doc.now.stops query.now.from × HasStop doc.now.stops query.now.to) }
        ensures unknown_from { result ≡ Err BeginFault.UnknownFrom → ¬ HasStop doc.now.stops query.now.from }
        ensures unknown_to { result ≡ Err BeginFault.UnknownTo → HasStop doc.now.stops query.now.from × (¬ HasStop doc.now.stops query.now.to) }
    {
        let stops = doc.stops.as_slice();
        if place_of(stops, &query.from).is_none() {
            return Err(BeginFault::UnknownFrom);
        }
        if place_of(stops, &query.to).is_none() {
            return Err(BeginFault::UnknownTo);
        }
        Ok(Scan::of_nothing(alloc, query, doc)?)
    }

    /// A scan of the question, before it takes anything. The document knows both ends of the question, or the scan stands for nothing.
    fn of_nothing(alloc: Global, query: &Query, doc: &StopsDoc) -> Result<Scan, NoMemory>
        requires { query.now.horizon ≤ 604_800 }
        ensures { IfOk result (λ scan. IsAsked query.now doc.now → StandsFor scan query.now doc.now []) }
    {
        let progress = Progress::new(alloc, doc.stops.as_slice().len())?;
        let walks = Walks::new(alloc, query, doc)?;
        let guesses = Guesses::new(alloc)?;
        Scan::before_any(alloc, query, doc, walks, progress, guesses)
    }

    /// A scan of the question with these walks, before it takes anything.
    fn before_any(
        alloc: Global,
        query: &Query,
        doc: &StopsDoc,
        walks: Walks,
        progress: Progress,
        guesses: Guesses,
    ) -> Result<Scan, NoMemory>
        requires up_to_a_week { query.now.horizon ≤ 604_800 }
        requires near { AreWalks query.now doc.now walks }
        requires nothing { kept_of progress ≡ nothing_of (length doc.now.stops) }
        ensures { IfOk result (λ scan. IsAsked query.now doc.now → StandsFor scan query.now doc.now []) }
    {
        let query = query.copy(alloc)?;
        let doc = doc.copy(alloc)?;
        let runs = RunNumbers::new(alloc);
        Ok(Scan {
            query,
            doc,
            walks,
            runs,
            progress,
            guesses,
        })
    }

    /// Takes the connections that come after those taken before. Departures before the question leaves are not boarded, and
    /// what arrives after its horizon is left out. A connection takes a constant time where a guess finds its run and its stops. Else
    /// it takes the logarithm of the runs and of the stops.
    pub fn take_all(&mut self, alloc: Global, list: &Connections) -> Result<(), NoMemory>
        ensures ok { OnOk result (GoesOnBy self.old self.new list.now) }
        ensures err { OnErr result (StaysAsItWas self.old self.new) }
    {
        let list = list.as_slice();
        let numbers = self.prepare(alloc, list)?;
        self.progress.take_each(
            &self.query,
            &self.doc,
            &self.walks,
            &mut self.guesses,
            list,
            numbers.as_slice(),
        );
        Ok(())
    }

    /// The numbers of the connections' runs, with room for all that the connections can bring: taking them needs no
    /// memory then.
    fn prepare(&mut self, alloc: Global, list: &[Connection]) -> Result<Vec<usize>, NoMemory>
        ensures numbers { IfOk result (λ numbers. AreNumbersOf self.new.runs list.now numbers.items) }
        ensures room { OnOk result (HasRoom self.new.progress (length self.new.runs) (length list.now)) }
        ensures distinct { OnOk result (AreDistinct self.new.runs) }
        ensures same { StaysAsItWas self.old self.new }
    {
        let numbers = number_each(alloc, &mut self.runs, &mut self.guesses, list)?;
        self.progress.make_room(self.runs.len(), list.len())?;
        Ok(numbers)
    }

    /// The stops document over which the scan was begun.
    pub fn doc(&self) -> &StopsDoc
        ensures { (query : Query) (doc : StopsDoc) (taken : List Connection) → StandsFor self.now query doc taken → result.now ≡ doc }
    {
        &self.doc
    }

    /// The least arrival of a chain of the connections taken, or none where there is no chain.
    pub fn best(&self) -> Option<Moment>
        ensures { (query : Query) (doc : StopsDoc) (taken : List Connection) → StandsFor self.now query doc taken → IsListBest query doc taken result }
    {
        self.progress.best.map(|goal| goal.arr)
    }

    /// Whether the moment is at or after the least arrival, or at or after the end of the horizon where there is no chain. Then connections that
    /// depart later change nothing any more.
    pub fn done(&self, last: Moment) -> bool
        ensures { (query : Query) (doc : StopsDoc) (taken : List Connection) (best : Option ℕ) → StandsFor self.now query doc taken → IsListBest query doc taken best
            → (IsTrue result ↔ IsDone query best last) }
    {
        is_over(&self.query, self.best(), last)
    }

    /// A chain of the connections taken that arrives at the least arrival, or none where there is no chain.
    pub fn journey(&self, alloc: Global) -> Result<Option<Journey>, NoMemory>
        ensures { IfOk result (λ journey. (query : Query) (doc : StopsDoc) (taken : List Connection)
            → StandsFor self.now query doc taken → IsBestChain query doc taken journey) }
    {
        let Some(goal) = self.progress.best else {
            return Ok(None);
        };
        let stops = self.doc.stops.as_slice();
        let rides = rides_to(
            alloc,
            stops,
            self.runs.as_slice(),
            self.progress.arrivals.as_slice(),
            goal.place,
        )?;
        let journey = self.walks.journey(alloc, stops, rides)?;
        Ok(Some(journey))
    }
}
