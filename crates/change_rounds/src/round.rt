ghost use Rattle.std.specs.Prelude.{◌≡◌, ◌+◌, ◌<◌, ◌≤◌, ◌∷◌, ◌++◌, [], ℕ, suc, List, Some, OnOk, length, vec_len, vec_capacity};
ghost use Rattle.std.specs.List.{All, slice_get};
ghost use Rattle.lc_model.specs.Leg.{in_time};
ghost use Rattle.lc_model.specs.declared.connection.Connection.{Connection};
ghost use Rattle.lc_model.specs.declared.key.RunKey.{RunKey};
ghost use Rattle.csa_scan.specs.Kept.{HasRoom, kept_of};
ghost use Rattle.csa_scan.specs.Numbers.{AreDistinct, AreNumbersOf};
ghost use Rattle.csa_scan.specs.Stands.{IsAsked, IsReady};
ghost use Rattle.csa_scan.specs.Walks.{AreWalks};
ghost use Rattle.csa_scan.specs.declared.trace.Arrival.{Arrival};
ghost use Rattle.change_rounds.specs.Round.{AfterRounds};
ghost use Rattle.change_rounds.specs.InRound.{PointInto, StandsInRound, cleared};

use csa_scan::{Guesses, Progress, Ready, Walks, boarding, is_late, new_arrival};
use lc_model::{Connection, NoMemory, Query, StopsDoc};
use std::alloc::Global;

/// Takes the connection in a round. The stops were ready so before it. Its run has this number.
fn take_one(
    progress: &mut Progress,
    query: &Query,
    doc: &StopsDoc,
    walks: &Walks,
    guesses: &mut Guesses,
    ready: &[Option<Ready>],
    connection: &Connection,
    run: usize,
)
    requires one_each { length progress.old.ready.items ≡ length doc.now.stops }
    requires each_walk { length walks.now.starts.items ≡ length doc.now.stops }
    requires each_ready { length ready.now ≡ length doc.now.stops }
    requires up_to_a_week { query.now.horizon ≤ 604_800 }
    requires known { run < length progress.old.boardings.items }
    requires points { PointInto (length progress.old.arrivals.items) ready.now }
    requires room { vec_len progress.old.arrivals < vec_capacity progress.old.arrivals }
    ensures stands { (runs : List RunKey) (before : List Arrival) (list : List Connection) → IsAsked query.now doc.now → AreWalks query.now doc.now walks.now → AreDistinct runs
        → slice_get runs run ≡ Some connection.now.key → IsReady doc.now before ready.now
        → StandsInRound query.now doc.now runs before (kept_of progress.old) (in_time query.now list)
        → StandsInRound query.now doc.now runs before (kept_of progress.new) (in_time query.now (list ++ connection.now ∷ [])) }
    ensures same_stops { length progress.new.ready.items ≡ length progress.old.ready.items }
    ensures same_runs { length progress.new.boardings.items ≡ length progress.old.boardings.items }
    ensures no_fewer { vec_len progress.old.arrivals ≤ vec_len progress.new.arrivals }
    ensures room { vec_capacity progress.old.arrivals ≤ vec_capacity progress.new.arrivals }
    ensures grows { vec_len progress.new.arrivals ≤ vec_len progress.old.arrivals + 1 }
{
    if is_late(query, connection) {
        return;
    }
    let before = progress.boardings[run];
    let starts = walks.starts.as_slice();
    let Some(boarding) = boarding(query, doc, guesses, starts, ready, before, connection) else {
        return;
    };
    let arrival = new_arrival(
        doc,
        guesses,
        progress.reached.as_slice(),
        connection,
        run,
        &boarding,
    );
    progress.boardings[run] = Some(boarding);
    let Some(arrival) = arrival else {
        return;
    };
    progress.arrive(query, doc, walks.ends.as_slice(), arrival);
}

/// Takes the connections of a round in order. Their runs have these numbers, and there is room for their arrivals. A connection takes a
/// constant time where a guess finds its stops. Else it takes the logarithm of the stops.
fn take_each(
    progress: &mut Progress,
    query: &Query,
    doc: &StopsDoc,
    walks: &Walks,
    guesses: &mut Guesses,
    ready: &[Option<Ready>],
    list: &[Connection],
    numbers: &[usize],
)
    requires one_each { length progress.old.ready.items ≡ length doc.now.stops }
    requires each_walk { length walks.now.starts.items ≡ length doc.now.stops }
    requires each_ready { length ready.now ≡ length doc.now.stops }
    requires up_to_a_week { query.now.horizon ≤ 604_800 }
    requires same_length { length numbers.now ≡ length list.now }
    requires known { All (λ n. n < length progress.old.boardings.items) numbers.now }
    requires points { PointInto (length progress.old.arrivals.items) ready.now }
    requires room { vec_len progress.old.arrivals + length list.now ≤ vec_capacity progress.old.arrivals }
    ensures stands { (runs : List RunKey) (before : List Arrival) → IsAsked query.now doc.now → AreWalks query.now doc.now walks.now → AreDistinct runs
        → AreNumbersOf runs list.now numbers.now → IsReady doc.now before ready.now
        → StandsInRound query.now doc.now runs before (kept_of progress.old) []
        → StandsInRound query.now doc.now runs before (kept_of progress.new) (in_time query.now list.now) }
    ensures same_stops { length progress.new.ready.items ≡ length progress.old.ready.items }
    ensures same_runs { length progress.new.boardings.items ≡ length progress.old.boardings.items }
{
    for (i, connection) in list.iter().enumerate() {
        take_one(
            progress, query, doc, walks, guesses, ready, connection, numbers[i],
        );
    }
}

/// Begins a round: no run is boarded, and there is room for so many arrivals more.
fn begin_round(
    alloc: Global,
    progress: &mut Progress,
    runs: usize,
    arrivals: usize,
) -> Result<(), NoMemory>
    requires { length progress.old.boardings.items ≤ runs }
    ensures room { OnOk result (HasRoom progress.new runs arrivals) }
    ensures cleared { OnOk result (kept_of progress.new ≡ cleared runs (kept_of progress.old)) }
    ensures same_stops { length progress.new.ready.items ≡ length progress.old.ready.items }
    ensures no_more { length progress.new.boardings.items ≤ runs }
{
    progress.arrivals.reserve(arrivals)?;
    progress.boardings = vec![in alloc; None; runs]?;
    Ok(())
}

/// One round more over the connections, whose runs have these numbers. Linear in the connections, the stops and the runs.
pub fn round(
    alloc: Global,
    progress: &mut Progress,
    query: &Query,
    doc: &StopsDoc,
    walks: &Walks,
    guesses: &mut Guesses,
    list: &[Connection],
    numbers: &[usize],
    runs: usize,
) -> Result<(), NoMemory>
    requires one_each { length progress.old.ready.items ≡ length doc.now.stops }
    requires each_walk { length walks.now.starts.items ≡ length doc.now.stops }
    requires up_to_a_week { query.now.horizon ≤ 604_800 }
    requires same_length { length numbers.now ≡ length list.now }
    requires known { All (λ n. n < runs) numbers.now }
    requires numbered { length progress.old.boardings.items ≤ runs }
    ensures one_more { OnOk result ((keys : List RunKey) (n : ℕ) → IsAsked query.now doc.now → AreWalks query.now doc.now walks.now → AreDistinct keys
        → AreNumbersOf keys list.now numbers.now → AfterRounds query.now doc.now keys (kept_of progress.old) (in_time query.now list.now) n
        → AfterRounds query.now doc.now keys (kept_of progress.new) (in_time query.now list.now) (suc n)) }
    ensures same_stops { length progress.new.ready.items ≡ length progress.old.ready.items }
    ensures no_more { length progress.new.boardings.items ≤ runs }
{
    let ready = Vec::from_slice(alloc, progress.ready.as_slice())?;
    begin_round(alloc, progress, runs, list.len())?;
    take_each(
        progress,
        query,
        doc,
        walks,
        guesses,
        ready.as_slice(),
        list,
        numbers,
    );
    Ok(())
}
