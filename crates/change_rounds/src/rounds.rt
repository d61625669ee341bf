ghost use Rattle.std.specs.Prelude.{◌≡◌, ◌<◌, ◌≤◌, length};
ghost use Rattle.std.specs.List.{All};

use crate::round::round;
use csa_scan::{Guesses, Progress, RunNumbers, Walks, number_each, rides_to};
use lc_model::{Connection, Journey, Moment, NoMemory, Query, StopsDoc};
use std::alloc::Global;

/// Rounds over connections in departure order. After each round the chains of one ride more are known.
#[derive(Drop)]
pub struct Rounds {
    pub walks: Walks,
    pub runs: RunNumbers,
    /// The numbers of the connections' runs, place by place.
    pub numbers: Vec<usize>,
    pub guesses: Guesses,
    pub progress: Progress,
    ghost each_walk: { length walks.starts.items ≡ length progress.ready.items },
    ghost numbered: { length progress.boardings.items ≤ length runs },
    ghost known: { All (λ n. n < length runs) numbers.items },
}

impl Rounds {
    ghost use Rattle.std.specs.Prelude.{◌≡◌, ◌≤◌, ℕ, suc, List, IfOk, OnOk, length};
    ghost use Rattle.lc_model.specs.declared.connection.Connection.{Connection as Listed};
    ghost use Rattle.lc_model.specs.declared.query.Query.{Query as Question};
    ghost use Rattle.lc_model.specs.declared.doc.StopsDoc.{StopsDoc as Document};
    ghost use Rattle.csa_scan.specs.Kept.{kept_of};
    ghost use Rattle.csa_scan.specs.Nothing.{nothing_of};
    ghost use Rattle.csa_scan.specs.Stands.{IsAsked};
    ghost use Rattle.csa_scan.specs.Walks.{AreWalks};
    ghost use Rattle.change_rounds.specs.Rounds.{AreRounds, IsChainWithin};

    /// Before the first round. Linear in the document, times the logarithm of its stops, and in the connections, times the
    /// logarithm of the runs.
    pub fn begin(
        alloc: Global,
        query: &Query,
        doc: &StopsDoc,
        list: &[Connection],
    ) -> Result<Rounds, NoMemory>
        ensures { IfOk result (AreRounds query.now doc.now list.now 0) }
    {
        let walks = Walks::new(alloc, query, doc)?;
        let progress = Progress::new(alloc, doc.stops.as_slice().len())?;
        Rounds::over(alloc, list, walks, progress)
    }

    /// Numbers the runs of the connections.
    fn over(
        alloc: Global,
        list: &[Connection],
        walks: Walks,
        progress: Progress,
    ) -> Result<Rounds, NoMemory>
        requires each_walk { length walks.starts.items ≡ length progress.ready.items }
        requires not_boarded { length progress.boardings.items ≡ 0 }
        ensures { IfOk result (λ rounds. (query : Question) (doc : Document) → AreWalks query doc walks → kept_of progress ≡ nothing_of (length doc.stops)
            → AreRounds query doc list.now 0 rounds) }
    {
        let mut guesses = Guesses::new(alloc)?;
        let mut runs = RunNumbers::new(alloc);
        let numbers = number_each(alloc, &mut runs, &mut guesses, list)?;
        // Each run has one number.
        let _distinct = runs.as_slice();
        Ok(Rounds {
            walks,
            runs,
            numbers,
            guesses,
            progress,
        })
    }

    /// One round more. Linear in the connections, the stops and the runs.
    pub fn advance(
        &mut self,
        alloc: Global,
        query: &Query,
        doc: &StopsDoc,
        list: &[Connection],
    ) -> Result<(), NoMemory>
        requires one_each { length self.old.walks.starts.items ≡ length doc.now.stops }
        requires same_length { length self.old.numbers.items ≡ length list.now }
        requires up_to_a_week { query.now.horizon ≤ 604_800 }
        ensures one_each { length self.new.walks.starts.items ≡ length doc.now.stops }
        ensures same_length { length self.new.numbers.items ≡ length list.now }
        ensures one_more { OnOk result ((n : ℕ) → IsAsked query.now doc.now → AreRounds query.now doc.now list.now n self.old
            → AreRounds query.now doc.now list.now (suc n) self.new) }
    {
        round(
            alloc,
            &mut self.progress,
            query,
            doc,
            &self.walks,
            &mut self.guesses,
            list,
            self.numbers.as_slice(),
            self.runs.len(),
        )
    }

    /// A chain that arrives by the moment, over as many rides at most as rounds were made, or none where there is no such chain.
    pub fn found(
        &self,
        alloc: Global,
        doc: &StopsDoc,
        best: Moment,
    ) -> Result<Option<Journey>, NoMemory>
        requires one_each { length self.now.walks.starts.items ≡ length doc.now.stops }
        ensures { IfOk result (λ journey. (query : Question) (list : List Listed) (n : ℕ) → IsAsked query doc.now → AreRounds query doc.now list n self.now
            → IsChainWithin query doc.now list best n journey) }
    {
        let Some(goal) = self.progress.best else {
            return Ok(None);
        };
        if best.seconds() < goal.arr.seconds() {
            return Ok(None);
        }
        let stops = doc.stops.as_slice();
        let rides = rides_to(
            alloc,
            stops,
            self.runs.as_slice(),
            self.progress.arrivals.as_slice(),
            goal.place,
        )?;
        let journey = self.walks.journey(alloc, stops, rides)?;
        Ok(Some(journey))
    }
}
