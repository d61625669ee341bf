ghost use Rattle.std.specs.Prelude.{◌≡◌, ◌↔◌, ◌⊎◌, IfOk, OnErr, OnOk, filter, nat_le};
ghost use Rattle.std.specs.List.{Contains};
ghost use Rattle.lc_model.specs.Order.{AreApart, IsStrict};
ghost use Rattle.lc_model.specs.Versions.Pages.{is_before};
ghost use Rattle.version_store.specs.Index.Places.{is_between, place_cmp};
ghost use Rattle.version_store.specs.declared.index.place.Place.{Place as Stood};

use crate::index::heaps::by_departure;
use crate::index::place::Place;
use lc_model::{Moment, NoMemory};
use std::alloc::Global;
use std::collections::BTreeSet;
use std::marker::Model;

/// Places, each once: those from the start in one list, and beside it those that came later. Both are in departure order. A contract
/// sees them in one list.
#[derive(Drop)]
pub(crate) struct PlaceSet {
    pub(crate) first: Vec<Place>,
    pub(crate) later: BTreeSet<Place>,
}

impl Model for PlaceSet {
    ghost use Rattle.std.specs.Prelude.{List};
    ghost use Rattle.version_store.specs.Index.PlaceSets.{AreOnce, all_of};
    ghost use Rattle.version_store.specs.declared.index.place.Place.{Place};

    ghost Value = { List Place };

    ghost view = { all_of };

    ghost invariant = { AreOnce };
}

impl PlaceSet {
    /// The places of a list, in which each is once. Takes the time of a sort.
    pub(crate) fn new(alloc: Global, list: Vec<Place>) -> Result<PlaceSet, NoMemory>
        requires { AreApart place_cmp list.items }
        ensures { IfOk result (λ set. (p : Stood) → Contains set p ↔ Contains list.items p) }
    {
        let mut first = by_departure(alloc, list)?;
        // Mostly it is in order by now, which the sort finds out in one walk.
        first.sort_unstable();
        Ok(PlaceSet {
            first,
            later: BTreeSet::new(alloc),
        })
    }

    /// Puts a place beside the others, if it is not there. After a refusal they are as they were. Takes the logarithm of the places.
    pub(crate) fn insert(&mut self, place: Place) -> Result<(), NoMemory>
        ensures ok { OnOk result ((q : Stood) → Contains self.new q ↔ ((place ≡ q) ⊎ Contains self.old q)) }
        ensures err { OnErr result (self.new ≡ self.old) }
    {
        if self.first.binary_search(&place).is_err() {
            self.later.insert(place)?;
        }
        Ok(())
    }
}

/// Those of a list in departure order that depart from a moment on. Takes the logarithm of the list.
fn from_on(places: &[Place], from: Moment) -> &[Place]
    requires { IsStrict place_cmp places.now }
    ensures { result.now ≡ filter (λ (p : Stood). nat_le from p.dep) places.now }
{
    let begin = places.partition_point(|place| place.dep < from);
    &places[begin..]
}

/// Those of a list in departure order that depart before a moment, where there is one. Takes the logarithm of the list.
fn before(places: &[Place], to: Option<Moment>) -> &[Place]
    requires { IsStrict place_cmp places.now }
    ensures { result.now ≡ filter (λ (p : Stood). is_before to p.dep) places.now }
{
    match to {
        Some(to) => {
            let end = places.partition_point(|place| place.dep < to);
            &places[..end]
        }
        None => places,
    }
}

/// Those of a list in departure order that depart from a moment on, and before the other one where there is one. Takes the logarithm
/// of the list.
pub(crate) fn between<'a>(places: &'a [Place], from: Moment, to: Option<Moment>) -> &'a [Place]
    requires { IsStrict place_cmp places.now }
    ensures { result.now ≡ filter (is_between from to) places.now }
{
    before(from_on(places, from), to)
}
