//! Versions of an index of runs, over trips of 2024-05-01: a run more, one in the place of another, and a run less.
ghost use Rattle.std.specs.Prelude.{IfOk};
ghost use Rattle.lc_model.specs.Call.{GoesForward};
ghost use Rattle.lc_model.specs.Run.{InKeyOrder, RunsForward};
ghost use Rattle.lc_model.specs.declared.run.Run.{Run as StatedRun};

use super::stores::{put_connections, put_moments};
use super::trips::run;
use crate::making::MIDNIGHT;
use lc_model::{Moment, Run, Stops};
use live_calls::live;
use rows_common::{Draft, Unmade};
use std::alloc::Global;
use version_store::{Index, one_index};

/// The run of a trip with the calls of the list of this name.
fn forward_run(alloc: Global, stops: &Stops, trip: &str, name: &str) -> Result<Run, Unmade>
    ensures { IfOk result (λ (r : StatedRun). GoesForward r.calls) }
{
    let made = run(alloc, stops, trip, name)?;
    let calls = live(alloc, &made, None)?;
    let Run { key, .. } = made;
    Ok(Run { key, calls })
}

fn none(alloc: Global) -> Vec<Run>
    ensures in_order { InKeyOrder result.items }
    ensures forward { RunsForward result.items }
{
    Vec::new(alloc)
}

fn one(alloc: Global, run: Run) -> Result<Vec<Run>, Unmade>
    requires { GoesForward run.calls }
    ensures in_order { IfOk result (λ runs. InKeyOrder runs.items) }
    ensures forward { IfOk result (λ runs. RunsForward runs.items) }
{
    let mut runs = Vec::new(alloc);
    runs.push(run)?;
    Ok(runs)
}

/// The index of a run alone.
fn base(alloc: Global, stops: &Stops, trip: &str) -> Result<Index, Unmade> {
    let run = forward_run(alloc, stops, trip, trip)?;
    let runs = one(alloc, run)?;
    Ok(Index::new(alloc, runs)?)
}

/// A version in which a run begins.
fn begin(
    alloc: Global,
    index: &mut Index,
    stops: &Stops,
    trip: &str,
    name: &str,
) -> Result<(), Unmade> {
    let run = forward_run(alloc, stops, trip, name)?;
    let runs = one(alloc, run)?;
    if index.newest() < u32::MAX {
        index.update(alloc, Vec::new(alloc), runs)?;
    }
    Ok(())
}

/// A version in which a run ends.
fn end(alloc: Global, index: &mut Index, stops: &Stops, trip: &str) -> Result<(), Unmade> {
    let Run { key, .. } = run(alloc, stops, trip, trip)?;
    let mut keys = Vec::new(alloc);
    keys.push(key)?;
    if index.newest() < u32::MAX {
        index.update(alloc, keys, none(alloc))?;
    }
    Ok(())
}

fn second_of(second: u32) -> Option<Moment> {
    Moment::new(MIDNIGHT + second as u64)
}

fn put_rows(
    alloc: Global,
    draft: &mut Draft,
    index: &Index,
    version: u32,
    from: u32,
    to: Option<Moment>,
) {
    let Some(from) = second_of(from) else {
        return draft.lose();
    };
    draft.put("version ");
    draft.put_shown(&version);
    draft.put(": ");
    match index.rows(alloc, version, from, to) {
        Ok(list) => put_connections(draft, list.as_slice()),
        Err(_) => draft.lose(),
    }
}

fn put_departures(alloc: Global, draft: &mut Draft, index: &Index, version: u32) {
    draft.put("departures: ");
    match index.departures(alloc, version) {
        Ok(departures) => put_moments(draft, departures.as_slice(), " "),
        Err(_) => draft.lose(),
    }
    draft.put("\n");
}

/// Each version is asked once all are there.
fn put_index(alloc: Global, draft: &mut Draft, index: &Index) {
    for version in 0..5 {
        put_rows(alloc, draft, index, version, 28_800, None);
    }
    put_rows(alloc, draft, index, 1, 29_460, second_of(29_520));
    put_rows(alloc, draft, index, 1, 29_460, second_of(29_460));
    put_departures(alloc, draft, index, 1);
}

fn updated(alloc: Global, index: &mut Index, stops: &Stops) -> Result<(), Unmade> {
    begin(alloc, index, stops, "T3", "T3")?;
    begin(alloc, index, stops, "T1", "T2")?;
    end(alloc, index, stops, "T3")?;
    begin(alloc, index, stops, "T1", "T1")
}

fn index_of(alloc: Global, stops: &Stops) -> Result<Index, Unmade> {
    let mut index = base(alloc, stops, "T1")?;
    updated(alloc, &mut index, stops)?;
    Ok(index)
}

/// The rows of T1, then with T3, then with the calls of T2, then without T3, then as at first.
pub(super) fn put_spans(alloc: Global, draft: &mut Draft, stops: &Stops) {
    one_index();
    match index_of(alloc, stops) {
        Ok(index) => put_index(alloc, draft, &index),
        Err(Unmade) => draft.lose(),
    }
}
