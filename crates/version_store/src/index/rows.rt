ghost use Rattle.std.specs.Prelude.{◌≡◌, ◌∷◌, ◌++◌, [], IfOk, OnOk, filter, filter_map, is_some, map};
ghost use Rattle.lc_model.specs.Connection.{NoneArrivesEarly};
ghost use Rattle.lc_model.specs.Order.{AreApart};
ghost use Rattle.version_store.specs.Index.Inside.{AreSpans};
ghost use Rattle.version_store.specs.Index.Places.{connection_of, is_between, is_held, place_cmp, shown, shown_of};
ghost use Rattle.version_store.specs.Index.Rows.{AreDepartures, AreRows};
ghost use Rattle.version_store.specs.Index.Spans.{held, runs_at};
ghost use Rattle.version_store.specs.declared.index.place.Place.{Place as Stood};

use crate::index::Index;
use crate::index::place::Place;
use crate::index::place_set::{PlaceSet, between};
use crate::index::state::State;
use lc_model::{Connection, Connections, Moment, NoMemory, Ranked};
use std::alloc::Global;
use std::collections::BTreeSet;
use std::ops::Bound;

/// The connection of a state from its call at a place to the next one, if it has both.
fn connection_of(alloc: Global, state: &State, at: u32) -> Result<Option<Connection>, NoMemory>
    ensures { IfOk result (λ connection. connection ≡ connection_of at state.now) }
{
    let calls = state.calls.as_slice();
    let at = at as usize;
    let Some(from) = calls.get(at) else {
        return Ok(None);
    };
    let Some(to) = calls.get(at + 1) else {
        return Ok(None);
    };
    Ok(Some(Connection::between(alloc, &state.key, from, to)?))
}

/// That connection, if the state holds in the version.
fn shown_of(
    alloc: Global,
    state: &State,
    version: u32,
    at: u32,
) -> Result<Option<Connection>, NoMemory>
    ensures { IfOk result (λ connection. connection ≡ shown_of version at state.now) }
{
    if state.holds(version) {
        connection_of(alloc, state, at)
    } else {
        Ok(None)
    }
}

/// The connection at a place, if it is of a run that holds in the version.
fn shown(
    alloc: Global,
    states: &[State],
    version: u32,
    place: Place,
) -> Result<Option<Connection>, NoMemory>
    ensures { IfOk result (λ connection. connection ≡ shown version states.now place) }
{
    match states.get(place.state as usize) {
        Some(state) => shown_of(alloc, state, version, place.at),
        None => Ok(None),
    }
}

/// Adds the connection at a place, if it is of a run that holds in the version.
fn push_shown(
    alloc: Global,
    list: &mut Vec<Connection>,
    states: &[State],
    version: u32,
    place: Place,
) -> Result<(), NoMemory>
    ensures { OnOk result (list.new.items ≡ list.old.items ++ filter_map (shown version states.now) (place ∷ [])) }
{
    if let Some(connection) = shown(alloc, states, version, place)? {
        list.push(connection)?;
    }
    Ok(())
}

/// Adds the connections at these places of the runs that hold in the version.
fn push_first(
    alloc: Global,
    list: &mut Vec<Connection>,
    states: &[State],
    version: u32,
    places: &[Place],
) -> Result<(), NoMemory>
    ensures { OnOk result (list.new.items ≡ list.old.items ++ filter_map (shown version states.now) places.now) }
{
    for place in places {
        push_shown(alloc, list, states, version, *place)?;
    }
    Ok(())
}

/// Adds those of them that depart from a moment on, and before the other one where there is one.
fn push_later(
    alloc: Global,
    list: &mut Vec<Connection>,
    states: &[State],
    version: u32,
    places: &BTreeSet<Place>,
    from: Moment,
    to: Option<Moment>,
) -> Result<(), NoMemory>
    ensures { OnOk result (list.new.items ≡ list.old.items ++ filter_map (shown version states.now) (filter (is_between from to) places.now.keys)) }
{
    let span = (
        Bound::Included(Place::first_at(from)),
        Place::end_of(from, to),
    );
    for place in places.range(span) {
        push_shown(alloc, list, states, version, *place)?;
    }
    Ok(())
}

/// The connections of the runs that hold in a version: those at the places from the start, and then the others, each in departure
/// order. They depart from a moment on, and before the other one where there is one. Takes the time of a walk over the places of
/// these departures, of all versions.
fn all_between(
    alloc: Global,
    states: &[State],
    places: &PlaceSet,
    version: u32,
    from: Moment,
    to: Option<Moment>,
) -> Result<Vec<Connection>, NoMemory>
    ensures shown { IfOk result (λ list. list.items ≡ filter_map (shown version states.now) (filter (is_between from to) places.now)) }
    ensures apart { OnOk result (AreApart place_cmp places.now) }
{
    let mut list = Vec::new(alloc);
    let (later, end) = (&places.later, to);
    let first = between(places.first.as_slice(), from, to);
    push_first(alloc, &mut list, states, version, first)?;
    push_later(alloc, &mut list, states, version, later, from, end)?;
    Ok(list)
}

/// The connections of the runs that hold in a version, in departure order.
fn sorted_between(
    alloc: Global,
    states: &[State],
    places: &PlaceSet,
    version: u32,
    from: Moment,
    to: Option<Moment>,
) -> Result<Vec<Connection>, NoMemory>
    requires { AreSpans states.now places.now }
    ensures are { IfOk result (λ list. AreRows (held version states.now) from to list.items) }
    ensures forward { IfOk result (λ list. NoneArrivesEarly list.items) }
{
    let mut list = all_between(alloc, states, places, version, from, to)?;
    // Of runs that were there from the start they are in this order already. The sort finds that out in one walk, and puts the others in between.
    list.sort_by(|a, b| a.compare(b))?;
    Ok(list)
}

/// Whether the state that has a place holds in the version.
fn is_held(states: &[State], version: u32, place: Place) -> bool
    ensures { result ≡ is_held version states.now place }
{
    match states.get(place.state as usize) {
        Some(state) => state.holds(version),
        None => false,
    }
}

/// Adds the departure of a place, if it is of a run that holds in the version.
fn push_departure(
    departures: &mut Vec<Moment>,
    states: &[State],
    version: u32,
    place: Place,
) -> Result<(), NoMemory>
    ensures { OnOk result (departures.new.items ≡ departures.old.items ++ map (λ (p : Stood). p.dep) (filter (is_held version states.now) (place ∷ []))) }
{
    let dep = place.dep;
    if is_held(states, version, place) {
        departures.push(dep)?;
    }
    Ok(())
}

/// Adds the departures at these places of the runs that hold in the version.
fn push_first_departures(
    departures: &mut Vec<Moment>,
    states: &[State],
    version: u32,
    places: &[Place],
) -> Result<(), NoMemory>
    ensures { OnOk result (departures.new.items ≡ departures.old.items ++ map (λ (p : Stood). p.dep) (filter (is_held version states.now) places.now)) }
{
    for place in places {
        push_departure(departures, states, version, *place)?;
    }
    Ok(())
}

/// Adds those at the places of a set.
fn push_later_departures(
    departures: &mut Vec<Moment>,
    states: &[State],
    version: u32,
    places: &BTreeSet<Place>,
) -> Result<(), NoMemory>
    ensures { OnOk result (departures.new.items ≡ departures.old.items ++ map (λ (p : Stood). p.dep) (filter (is_held version states.now) places.now.keys)) }
{
    for place in places {
        push_departure(departures, states, version, *place)?;
    }
    Ok(())
}

/// The departures of the runs that hold in a version, in their order. Takes the time of a walk over all places.
fn all_departures(
    alloc: Global,
    states: &[State],
    places: &PlaceSet,
    version: u32,
) -> Result<Vec<Moment>, NoMemory>
    requires { AreSpans states.now places.now }
    ensures { IfOk result (λ departures. AreDepartures (held version states.now) departures.items) }
{
    let mut departures = Vec::with_capacity(alloc, places.first.len())?;
    push_first_departures(&mut departures, states, version, places.first.as_slice())?;
    push_later_departures(&mut departures, states, version, &places.later)?;
    // Each of the two is in order, and the sort merges them.
    departures.sort()?;
    Ok(departures)
}

impl Index {
    /// The connections of a version that depart from a moment on, and before the other one where there is one, in departure order. It
    /// takes the time of a walk over the places of these departures, of all versions. Those of the start and the later ones are merged.
    pub fn rows(
        &self,
        alloc: Global,
        version: u32,
        from: Moment,
        to: Option<Moment>,
    ) -> Result<Connections, NoMemory>
        ensures { IfOk result (AreRows (runs_at self.now version) from to) }
    {
        let spans = &self.spans;
        let list = sorted_between(
            alloc,
            spans.states.as_slice(),
            &spans.places,
            version,
            from,
            to,
        )?;
        Ok(Connections::from_list(list))
    }

    /// The departures of a version, one for each connection, in their order. It takes the time of a walk over the places of all versions.
    pub fn departures(&self, alloc: Global, version: u32) -> Result<Vec<Moment>, NoMemory>
        ensures { IfOk result (λ departures. AreDepartures (runs_at self.now version) departures.items) }
    {
        all_departures(
            alloc,
            self.spans.states.as_slice(),
            &self.spans.places,
            version,
        )
    }
}
