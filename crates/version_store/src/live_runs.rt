ghost use Rattle.std.specs.Prelude.{◌≡◌, ◌↔◌, All, IfOk, OnOk, Some, map};
ghost use Rattle.std.specs.List.{Contains};
ghost use Rattle.std.specs.BTreeMap.{get};
ghost use Rattle.lc_model.specs.Call.{GoesForward, InSequence};
ghost use Rattle.lc_model.specs.RunKey.{key_cmp};
ghost use Rattle.lc_model.specs.Run.{InKeyOrder};
ghost use Rattle.lc_model.specs.Text.{IsIdText};
ghost use Rattle.lc_model.specs.declared.run.Run.{Run as StatedRun};
ghost use Rattle.lc_model.specs.Versions.Live.{live_calls_of};
ghost use Rattle.version_store.specs.BaseRuns.{base_run};
ghost use Rattle.version_store.specs.Further.{IsFurther};
ghost use Rattle.version_store.specs.Kept.{news_said};
ghost use Rattle.version_store.specs.Named.{said_at};

use crate::dated::DatedNews;
use crate::named::is_added;
use lc_model::{Calls, NoMemory, PlainData, Run, RunKey, Stops};
use live_calls::{added_run_on, live};
use std::alloc::Global;
use std::collections::BTreeMap;

/// The live calls of a run of the timetable. Takes the logarithm of the news, and the time of its live calls.
pub(crate) fn live_of(
    alloc: Global,
    run: &Run,
    named: &BTreeMap<RunKey, DatedNews<'_>>,
) -> Result<Calls, NoMemory>
    ensures live { IfOk result (λ calls. calls ≡ live_calls_of run.now.calls (said_at named.now run.now.key)) }
    ensures forward { IfOk result GoesForward }
{
    match named.get(&run.key) {
        Some(dated) => live(alloc, run, Some(dated.news)),
        None => live(alloc, run, None),
    }
}

/// The run that news make, if they are of an added trip and make one.
pub(crate) fn further_run(
    alloc: Global,
    stops: &Stops,
    news: DatedNews<'_>,
) -> Result<Option<Run>, NoMemory>
    ensures { IfOk result (IsFurther stops.now (news_said news.entry)) }
{
    let said = news.news;
    if is_added(said.kind) {
        added_run_on(alloc, said, news.date, stops)
    } else {
        Ok(None)
    }
}

/// The trip of a run is an id, and its calls are in sequence, as their types say. The call does nothing.
fn run_is_sound(run: &Run)
    ensures trip { IsIdText run.now.key.trip }
    ensures calls { InSequence run.now.calls }
{
    let _trip = run.key.trip.bytes();
    let _calls = run.calls.as_slice();
}

/// A run of the timetable with its live calls where there are no news.
fn base_run(alloc: Global, run: &Run) -> Result<Run, NoMemory>
    ensures live { IfOk result (λ made. made ≡ base_run run.now) }
    ensures forward { IfOk result (λ made. GoesForward made.calls) }
{
    let calls = live(alloc, run, None)?;
    let key = run.key.copy(alloc)?;
    Ok(Run { key, calls })
}

/// The runs of the timetable with their live calls where there are no news, in their order. Takes the time of their calls.
pub(crate) fn base_runs(alloc: Global, runs: &[Run]) -> Result<Vec<Run>, NoMemory>
    ensures live { IfOk result (λ list. list.items ≡ map base_run runs.now) }
    ensures forward { IfOk result (λ list. All (λ (r : StatedRun). GoesForward r.calls) list.items) }
    ensures trips { OnOk result (All (λ (r : StatedRun). IsIdText r.key.trip) runs.now) }
    ensures calls { OnOk result (All (λ (r : StatedRun). InSequence r.calls) runs.now) }
{
    let mut list = Vec::with_capacity(alloc, runs.len())?;
    'runs: for run in runs {
        run_is_sound(run);
        list.push(base_run(alloc, run)?)?;
    }
    Ok(list)
}

/// The runs in the order of their keys.
pub(crate) fn runs_in(alloc: Global, live: BTreeMap<RunKey, Calls>) -> Result<Vec<Run>, NoMemory>
    ensures in_order { IfOk result (λ runs. InKeyOrder runs.items) }
    ensures exactly { IfOk result (λ runs. (run : StatedRun) → Contains runs.items run ↔ (get key_cmp live run.key ≡ Some run.calls)) }
{
    let mut runs = Vec::with_capacity(alloc, live.len())?;
    'entries: for (key, calls) in live {
        runs.push(Run { key, calls })?;
    }
    Ok(runs)
}
