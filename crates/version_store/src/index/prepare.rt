ghost use Rattle.std.specs.Prelude.{◌≡◌, ◌∷◌, ◌++◌, [], ◌⊎◌, ◌↔◌, IfOk, IsSome, OnOk, length};
ghost use Rattle.std.specs.BTreeMap.{get};
ghost use Rattle.std.specs.List.{AllZip, Contains};
ghost use Rattle.lc_model.specs.Call.{GoesForward};
ghost use Rattle.lc_model.specs.Run.{RunsForward};
ghost use Rattle.lc_model.specs.RunKey.{key_cmp};
ghost use Rattle.version_store.specs.Index.Gathered.{IsOf};
ghost use Rattle.version_store.specs.Index.Prepared.{Carries, HasPlaces, HaveAlike, IsReady, KeepKeys, PutsState};
ghost use Rattle.version_store.specs.Index.Turns.{closed_state};
ghost use Rattle.version_store.specs.declared.index.place.Place.{Place as Stood};

use crate::index::gather::{number, push_places};
use crate::index::place::Place;
use crate::index::place_set::PlaceSet;
use crate::index::spans::Spans;
use crate::index::state::State;
use lc_model::{NoMemory, PlainData, Run, RunKey};
use std::alloc::Global;
use std::collections::BTreeMap;

/// A run that is to begin in the next version: its key, and the number of its state.
#[derive(Drop)]
pub(crate) struct Ready {
    pub(crate) key: RunKey,
    pub(crate) number: u32,
}

/// The state of a run that holds in no version.
fn closed(run: Run) -> State
    ensures { result ≡ closed_state run }
{
    let Run { key, calls } = run;
    State {
        key,
        calls,
        begin: 0,
        end: Some(0),
    }
}

/// The places of one state.
fn places_of_one(alloc: Global, state: &State, of: u32) -> Result<Vec<Place>, NoMemory>
    ensures { IfOk result (λ places. (p : Stood) → Contains places.items p ↔ IsOf of state.now p) }
{
    let mut places = Vec::new(alloc);
    push_places(&mut places, state, of)?;
    Ok(places)
}

/// Puts places beside those that are there. After a refusal some of them may be there.
fn put_places(places: &mut PlaceSet, more: Vec<Place>) -> Result<(), NoMemory>
    ensures kept { (p : Stood) → Contains places.old p → Contains places.new p }
    ensures only { (p : Stood) → Contains places.new p → Contains places.old p ⊎ Contains more.items p }
    ensures all { OnOk result ((p : Stood) → Contains more.items p → Contains places.new p) }
{
    for place in more {
        places.insert(place)?;
    }
    Ok(())
}

/// Sees to it that the map has the key. A new key has no number yet.
fn put_key(
    alloc: Global,
    running: &mut BTreeMap<RunKey, Option<u32>>,
    key: &RunKey,
) -> Result<(), NoMemory>
    ensures alike { HaveAlike (get key_cmp running.old) (get key_cmp running.new) }
    ensures stays { KeepKeys (get key_cmp running.old) (get key_cmp running.new) }
    ensures has { OnOk result (IsSome (get key_cmp running.new key.now)) }
{
    if !running.contains_key(key) {
        running.insert(key.copy(alloc)?, None)?;
    }
    Ok(())
}

/// Adds the state of a run that holds in no version, and its places.
fn put_state(
    alloc: Global,
    states: &mut Vec<State>,
    places: &mut PlaceSet,
    run: Run,
    number: u32,
) -> Result<(), NoMemory>
    ensures puts { PutsState number run states.old.items places.old states.new.items places.new }
    ensures pushed { OnOk result (states.new.items ≡ states.old.items ++ closed_state run ∷ []) }
    ensures has { OnOk result (HasPlaces number (closed_state run) places.new) }
{
    let state = closed(run);
    let more = places_of_one(alloc, &state, number)?;
    states.push(state)?;
    put_places(places, more)
}

/// Adds a run that holds in no version, with all that it needs to begin at this number. After a refusal there may be a part of it.
fn put_run(alloc: Global, spans: &mut Spans, run: Run, number: u32) -> Result<(), NoMemory>
    requires at { number ≡ length spans.old.states.items }
    requires forward { GoesForward run.calls }
    ensures carries { Carries spans.old.states.items spans.old.places (get key_cmp spans.old.running)
        spans.new.states.items spans.new.places (get key_cmp spans.new.running) }
    ensures ready { OnOk result (IsReady spans.new.states.items spans.new.places (get key_cmp spans.new.running) (record { key = run.key; number = number }) run) }
{
    put_key(alloc, &mut spans.running, &run.key)?;
    put_state(alloc, &mut spans.states, &mut spans.places, run, number)
}

/// Adds a run that is to begin in the next version. After a refusal there may be a part of it.
fn prepare(alloc: Global, spans: &mut Spans, run: Run) -> Result<Ready, NoMemory>
    requires { GoesForward run.calls }
    ensures carries { Carries spans.old.states.items spans.old.places (get key_cmp spans.old.running)
        spans.new.states.items spans.new.places (get key_cmp spans.new.running) }
    ensures ready { IfOk result (λ ready. IsReady spans.new.states.items spans.new.places (get key_cmp spans.new.running) ready run) }
{
    let number = number(spans.states.len())?;
    let key = run.key.copy(alloc)?;
    put_run(alloc, spans, run, number)?;
    Ok(Ready { key, number })
}

/// Adds these runs so. After a refusal there may be some of them.
pub(crate) fn prepare_all(
    alloc: Global,
    spans: &mut Spans,
    runs: Vec<Run>,
) -> Result<Vec<Ready>, NoMemory>
    requires { RunsForward runs.items }
    ensures carries { Carries spans.old.states.items spans.old.places (get key_cmp spans.old.running)
        spans.new.states.items spans.new.places (get key_cmp spans.new.running) }
    ensures ready { IfOk result (λ list. AllZip (IsReady spans.new.states.items spans.new.places (get key_cmp spans.new.running)) list.items runs.items) }
{
    let mut list = Vec::with_capacity(alloc, runs.len())?;
    for run in runs {
        list.push(prepare(alloc, spans, run)?)?;
    }
    Ok(list)
}
