ghost use Rattle.std.specs.Prelude.{◌≡◌, ℕ, IfOk, map};
ghost use Rattle.lc_model.specs.Run.{InKeyOrder, RunsForward};
ghost use Rattle.version_store.specs.Index.Base.{AreKeysInOrder, AreNumbered, HasNumbers, base_state};
ghost use Rattle.version_store.specs.Index.Spans.{runs_at};

use crate::index::Index;
use crate::index::gather::{number, places_of};
use crate::index::place_set::PlaceSet;
use crate::index::spans::Spans;
use crate::index::state::State;
use lc_model::{NoMemory, PlainData, Run, RunKey};
use std::alloc::Global;
use std::collections::BTreeMap;

/// The runs as states that hold from version 0 on.
fn base_states(alloc: Global, runs: Vec<Run>) -> Result<Vec<State>, NoMemory>
    ensures { IfOk result (λ states. states.items ≡ map base_state runs.items) }
{
    let mut states = Vec::with_capacity(alloc, runs.len())?;
    for run in runs {
        let Run { key, calls } = run;
        states.push(State {
            key,
            calls,
            begin: 0,
            end: None,
        })?;
    }
    Ok(states)
}

/// The keys of the states, each with the number of its state.
fn numbered_keys(alloc: Global, states: &[State]) -> Result<Vec<(RunKey, Option<u32>)>, NoMemory>
    ensures { IfOk result (λ numbers. HasNumbers states.now numbers.items) }
{
    let mut numbers = Vec::with_capacity(alloc, states.len())?;
    for (at, state) in states.iter().enumerate() {
        let number = number(at)?;
        numbers.push((state.key.copy(alloc)?, Some(number)))?;
    }
    Ok(numbers)
}

/// The numbers of the states by their keys. Linear in the states, since their keys come in order.
fn numbers_by_key(
    alloc: Global,
    states: &[State],
) -> Result<BTreeMap<RunKey, Option<u32>>, NoMemory>
    requires { AreKeysInOrder states.now }
    ensures { IfOk result (AreNumbered states.now) }
{
    let numbers = numbered_keys(alloc, states)?;
    Ok(numbers.into_iter().collect(alloc)?)
}

impl Index {
    /// The index of runs that hold in version 0, with no further version. It takes the time of a sort of their connections.
    pub fn new(alloc: Global, runs: Vec<Run>) -> Result<Index, NoMemory>
        requires in_order { InKeyOrder runs.items }
        requires forward { RunsForward runs.items }
        ensures base { IfOk result (λ index. index.newest ≡ 0) }
        ensures runs { IfOk result (λ index. (version : ℕ) → runs_at index version ≡ runs.items) }
    {
        let states = base_states(alloc, runs)?;
        let places = PlaceSet::new(alloc, places_of(alloc, states.as_slice())?)?;
        let running = numbers_by_key(alloc, states.as_slice())?;
        let spans = Spans {
            states,
            places,
            running,
        };
        Ok(Index { spans, newest: 0 })
    }
}
