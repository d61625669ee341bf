ghost use Rattle.std.specs.Prelude.{◌≡◌, ◌<◌, ℕ, ◌↔◌, ◌⊎◌, All, IfOk, OnOk};
ghost use Rattle.std.specs.List.{Contains};
ghost use Rattle.lc_model.specs.Order.{AreApart};
ghost use Rattle.version_store.specs.Index.Gathered.{AreOfStates, IsOf};
ghost use Rattle.version_store.specs.Index.Places.{place_cmp};
ghost use Rattle.version_store.specs.declared.index.place.Place.{Place as Stood};

use crate::index::place::Place;
use crate::index::state::State;
use lc_model::NoMemory;
use std::alloc::Global;

/// A number as an entry of the index has it. A list that is too long for that needs more memory than there is.
pub(crate) fn number(place: usize) -> Result<u32, NoMemory>
    ensures { IfOk result (λ number. number ≡ place) }
{
    u32::try_from(place).or(Err(NoMemory))
}

/// Adds the places of a state that has this number: one for each call that another one follows.
pub(crate) fn push_places(places: &mut Vec<Place>, state: &State, of: u32) -> Result<(), NoMemory>
    ensures has { OnOk result ((p : Stood) → Contains places.new.items p ↔ (Contains places.old.items p ⊎ IsOf of state.now p)) }
    ensures apart { OnOk result (All (λ (p : Stood). p.state < of) places.old.items → AreApart place_cmp places.old.items → AreApart place_cmp places.new.items) }
{
    let calls = state.calls.as_slice();
    for next in 1..calls.len() {
        let at = number(next - 1)?;
        let dep = calls[next - 1].dep;
        places.push(Place { dep, state: of, at })?;
    }
    Ok(())
}

/// How many places the states have. Where it is too many to count, there is no memory for so many.
fn places_in(states: &[State]) -> usize {
    let mut places: usize = 0;
    for state in states {
        places = places.saturating_add(state.calls.as_slice().len().saturating_sub(1));
    }
    places
}

/// The places of the states, each once.
pub(crate) fn places_of(alloc: Global, states: &[State]) -> Result<Vec<Place>, NoMemory>
    ensures has { IfOk result (λ places. AreOfStates states.now places.items) }
    ensures apart { IfOk result (λ places. AreApart place_cmp places.items) }
{
    let mut places = Vec::with_capacity(alloc, places_in(states))?;
    for (at, state) in states.iter().enumerate() {
        push_places(&mut places, state, number(at)?)?;
    }
    Ok(places)
}
