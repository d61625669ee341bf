ghost use Rattle.std.specs.Prelude.{◌≡◌, ℕ, ◌↔◌, [], ◌∷◌, ◌++◌, Any, Contains, IfOk, OnOk, Some, map, option_to_list};
ghost use Rattle.std.specs.List.Sorted.{IsSorted, IsStrictlyIncreasing};
ghost use Rattle.lc_model.specs.Stop.{InStopOrder};
ghost use Rattle.change_table.specs.Partners.{AreChildren, Gains, IsOf, child_cmp, id_at, named_ids, places_of};
ghost use Rattle.change_table.specs.Rows.{target};

use crate::children::Child;
use crate::origin::Origin;
use crate::rows::Row;
use lc_model::{Id, NoMemory, Stop, items_of};
use std::alloc::Global;

/// The place of the stop of an id. Takes the logarithm of the stops.
fn place_of(stops: &[Stop], id: &Id) -> Option<usize>
    requires { InStopOrder stops.now }
    ensures { (place : ℕ) → (result ≡ Some place) ↔ (id_at stops.now place ≡ Some id.now) }
{
    stops.binary_search_by(|stop| stop.id.cmp(id)).ok()
}

fn push_places(places: &mut Vec<usize>, children: &[Child]) -> Result<(), NoMemory>
    ensures { OnOk result (places.new.items ≡ places.old.items ++ places_of children.now) }
{
    for child in children {
        places.push(child.place)?;
    }
    Ok(())
}

fn push_place(places: &mut Vec<usize>, place: Option<usize>) -> Result<(), NoMemory>
    ensures { OnOk result (places.new.items ≡ places.old.items ++ option_to_list place) }
{
    if let Some(place) = place {
        places.push(place)?;
    }
    Ok(())
}

/// Adds the place of the stop of an id, and those of its children.
fn push_named(
    places: &mut Vec<usize>,
    stops: &[Stop],
    children: &[Child],
    id: &Id,
) -> Result<(), NoMemory>
    requires in_order { InStopOrder stops.now }
    requires children { AreChildren stops.now children.now }
    requires by_parent { IsSorted child_cmp children.now }
    ensures { OnOk result (Gains stops.now (id.now ∷ []) places.old.items places.new.items) }
{
    push_place(places, place_of(stops, id))?;
    push_places(places, items_of(children, id))?;
    Ok(())
}

fn push_parent(
    places: &mut Vec<usize>,
    stops: &[Stop],
    children: &[Child],
    parent: &Option<Id>,
) -> Result<(), NoMemory>
    requires in_order { InStopOrder stops.now }
    requires children { AreChildren stops.now children.now }
    requires by_parent { IsSorted child_cmp children.now }
    ensures { OnOk result (Gains stops.now (option_to_list parent.now) places.old.items places.new.items) }
{
    match parent {
        Some(parent) => push_named(places, stops, children, parent),
        None => Ok(()),
    }
}

fn push_targets(
    places: &mut Vec<usize>,
    stops: &[Stop],
    children: &[Child],
    rows: &[Row],
) -> Result<(), NoMemory>
    requires in_order { InStopOrder stops.now }
    requires children { AreChildren stops.now children.now }
    requires by_parent { IsSorted child_cmp children.now }
    ensures { OnOk result (Gains stops.now (map target rows.now) places.old.items places.new.items) }
{
    for row in rows {
        push_named(places, stops, children, &row.transfer.to)?;
    }
    Ok(())
}

fn named_places(
    alloc: Global,
    stops: &[Stop],
    children: &[Child],
    origin: &Origin,
) -> Result<Vec<usize>, NoMemory>
    requires in_order { InStopOrder stops.now }
    requires children { AreChildren stops.now children.now }
    requires by_parent { IsSorted child_cmp children.now }
    ensures { IfOk result (λ places.
        Gains stops.now (named_ids origin.now.stop.now origin.now.own.now origin.now.of_parent.now) [] places.items) }
{
    let mut places = Vec::new(alloc);
    push_named(&mut places, stops, children, &origin.stop.id)?;
    push_parent(&mut places, stops, children, &origin.stop.parent)?;
    push_targets(&mut places, stops, children, origin.own)?;
    push_targets(&mut places, stops, children, origin.of_parent)?;
    Ok(places)
}

/// The places of the stops to which there may be a change, in order and each once. They are those that the stop, its
/// parent, its rows and those of its parent name, and their children. Takes the time of a sort of what is named.
pub(crate) fn partners(
    alloc: Global,
    stops: &[Stop],
    children: &[Child],
    origin: &Origin,
) -> Result<Vec<usize>, NoMemory>
    requires in_order { InStopOrder stops.now }
    requires children { AreChildren stops.now children.now }
    requires by_parent { IsSorted child_cmp children.now }
    ensures all { IfOk result (λ places.
        Gains stops.now (named_ids origin.now.stop.now origin.now.own.now origin.now.of_parent.now) [] places.items) }
    ensures rising { IfOk result (λ places. IsStrictlyIncreasing places.items) }
{
    let mut places = named_places(alloc, stops, children, origin)?;
    places.sort_unstable();
    places.dedup();
    Ok(places)
}
