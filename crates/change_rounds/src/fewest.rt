ghost use Rattle.std.specs.Prelude.{◌≡◌, ◌≤◌, IfOk, List, length};
ghost use Rattle.lc_model.specs.Connection.{InDepartureOrder};
ghost use Rattle.lc_model.specs.Stop.{HasStop};
ghost use Rattle.lc_model.specs.declared.connection.Connection.{Connection as Listed};
ghost use Rattle.lc_model.specs.declared.doc.StopsDoc.{StopsDoc as Document};
ghost use Rattle.lc_model.specs.declared.query.Query.{Query as Question};
ghost use Rattle.csa_scan.specs.Stands.{IsAsked};
ghost use Rattle.csa_scan.specs.StandsFor.{StandsFor};
ghost use Rattle.change_rounds.specs.Best.{IsBestOf};
ghost use Rattle.change_rounds.specs.Fewest.{IsFewestChain};
ghost use Rattle.change_rounds.specs.Rounds.{AreRounds, IsFewestBelow};

use crate::rounds::Rounds;
use csa_scan::Scan;
use lc_model::{Connection, Connections, Journey, Moment, NoMemory, Query, StopsDoc};
use std::alloc::Global;

/// A best chain, and the moment at which it arrives.
#[derive(Drop)]
struct Best {
    arr: Moment,
    journey: Journey,
}

/// A scan that took the list. Takes the time of `Scan::take_all`.
fn scanned(
    alloc: Global,
    query: &Query,
    doc: &StopsDoc,
    list: &Connections,
) -> Result<Scan, NoMemory>
    requires from_one { 1 ≤ query.now.horizon }
    requires up_to_a_week { query.now.horizon ≤ 604_800 }
    requires in_order { InDepartureOrder list.now }
    ensures { IfOk result (λ scan. StandsFor scan query.now doc.now list.now) }
{
    match Scan::begin(alloc, query, doc) {
        Ok(mut scan) => {
            scan.take_all(alloc, list)?;
            Ok(scan)
        }
        Err(_) => Err(NoMemory),
    }
}

/// A best chain of what the scan took, or none where there is no chain.
fn best_of(alloc: Global, scan: &Scan) -> Result<Option<Best>, NoMemory>
    ensures { IfOk result (λ best. (query : Question) (doc : Document) (taken : List Listed) → StandsFor scan.now query doc taken → IsBestOf query doc taken best) }
{
    let Some(arr) = scan.best() else {
        return Ok(None);
    };
    let Some(journey) = scan.journey(alloc)? else {
        return Ok(None);
    };
    Ok(Some(Best { arr, journey }))
}

/// A best chain of the list, or none where there is no chain. Takes the time of `Scan::take_all`.
fn best_chain(
    alloc: Global,
    query: &Query,
    doc: &StopsDoc,
    list: &Connections,
) -> Result<Option<Best>, NoMemory>
    requires from_one { 1 ≤ query.now.horizon }
    requires up_to_a_week { query.now.horizon ≤ 604_800 }
    requires in_order { InDepartureOrder list.now }
    ensures { IfOk result (IsBestOf query.now doc.now list.now) }
{
    let scan = scanned(alloc, query, doc, list)?;
    best_of(alloc, &scan)
}

/// Makes round after round, fewer than so many, up to the first one after which a chain arrives by the moment.
fn search(
    alloc: Global,
    rounds: &mut Rounds,
    query: &Query,
    doc: &StopsDoc,
    list: &[Connection],
    best: Moment,
    rides: usize,
) -> Result<Option<Journey>, NoMemory>
    requires one_each { length rounds.old.walks.starts.items ≡ length doc.now.stops }
    requires same_length { length rounds.old.numbers.items ≡ length list.now }
    requires up_to_a_week { query.now.horizon ≤ 604_800 }
    requires asked { IsAsked query.now doc.now }
    requires none_made { AreRounds query.now doc.now list.now 0 rounds.old }
    ensures { IfOk result (IsFewestBelow query.now doc.now list.now best rides) }
{
    for round in 1..rides {
        rounds.advance(alloc, query, doc, list)?;
        if let Some(journey) = rounds.found(alloc, doc, best)? {
            return Ok(Some(journey));
        }
    }
    Ok(None)
}

/// Of the chains that arrive by the moment one of the fewest rides, if it has fewer than so many.
fn by_rounds(
    alloc: Global,
    query: &Query,
    doc: &StopsDoc,
    list: &[Connection],
    best: Moment,
    rides: usize,
) -> Result<Option<Journey>, NoMemory>
    requires up_to_a_week { query.now.horizon ≤ 604_800 }
    requires asked { IsAsked query.now doc.now }
    ensures { IfOk result (IsFewestBelow query.now doc.now list.now best rides) }
{
    let mut rounds = Rounds::begin(alloc, query, doc, list)?;
    search(alloc, &mut rounds, query, doc, list, best, rides)
}

/// A chain of the list that arrives at its least arrival, with the fewest rides of all such chains. It is none where there is no
/// chain. There are fewer rounds than the chain of a scan has rides, and each takes the time of `Scan::take_all`.
pub fn fewest_of(
    alloc: Global,
    query: &Query,
    doc: &StopsDoc,
    list: &Connections,
) -> Result<Option<Journey>, NoMemory>
    requires from_one { 1 ≤ query.now.horizon }
    requires up_to_a_week { query.now.horizon ≤ 604_800 }
    requires in_order { InDepartureOrder list.now }
    requires from_known { HasStop doc.now.stops query.now.from }
    requires to_known { HasStop doc.now.stops query.now.to }
    ensures { IfOk result (IsFewestChain query.now doc.now list.now) }
{
    let Some(Best { arr, journey }) = best_chain(alloc, query, doc, list)? else {
        return Ok(None);
    };
    let rides = journey.rides.as_slice().len();
    match by_rounds(alloc, query, doc, list.as_slice(), arr, rides)? {
        Some(fewer) => Ok(Some(fewer)),
        None => Ok(Some(journey)),
    }
}
