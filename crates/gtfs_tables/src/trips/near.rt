ghost use Rattle.std.specs.Prelude.{◌≡◌, ◌<◌, IfSome, length, map};
ghost use Rattle.std.specs.Bool.{OnTrue};
ghost use Rattle.std.specs.List.{HoldsAt};
ghost use Rattle.gtfs_tables.specs.Fields.TextPlaces.{HavePlaces};
ghost use Rattle.gtfs_tables.specs.Trips.StopTimeRows.{ids_of_trips};

use crate::TripRow;
use crate::fields::text_places::place_of_text;
use lc_model::{Keyed, Stop};
use std::collections::BTreeMap;

/// The place of the trip with this id, if there is one. Those at the place `near` and after it are looked at first.
pub(crate) fn trip_near<'a>(
    places: &BTreeMap<&'a [u8], usize>,
    trips: &[TripRow],
    id: &'a [u8],
    near: usize,
) -> Option<usize>
    requires { HavePlaces (ids_of_trips trips.now) places.now }
    ensures within { IfSome result (λ place. place < length trips.now) }
    ensures same { IfSome result (HoldsAt (λ t. t.trip ≡ id.now) trips.now) }
{
    if has_key(trips, near, id) {
        return Some(near);
    }
    let next = near.saturating_add(1);
    if has_key(trips, next, id) {
        return Some(next);
    }
    place_of_key(places, trips, id)
}

/// The place of the stop with this id, if one is found. The stop at the place `near` is looked at first; a search among stops
/// that are not sorted may find none. Takes the logarithm of the stops.
pub(crate) fn stop_near(stops: &[Stop], id: &[u8], near: usize) -> Option<usize>
    ensures within { IfSome result (λ place. place < length stops.now) }
    ensures same { IfSome result (HoldsAt (λ s. s.id ≡ id.now) stops.now) }
{
    if has_key(stops, near, id) {
        return Some(near);
    }
    let place = stops.partition_point(|stop| stop.id.bytes() < id);
    if has_key(stops, place, id) {
        return Some(place);
    }
    None
}

/// Whether the item at this place has this key.
pub(crate) fn has_key<T: Keyed>(items: &[T], place: usize, key: &[u8]) -> bool
    ensures within { OnTrue result (place < length items.now) }
    ensures same { OnTrue result (HoldsAt (λ x. T.key x ≡ key.now) items.now place) }
{
    place < items.len() && items[place].key().bytes() == key
}

// The place of an item with this key, if there is one. Takes the logarithm of the items.
fn place_of_key<'a, T: Keyed>(
    places: &BTreeMap<&'a [u8], usize>,
    items: &[T],
    key: &'a [u8],
) -> Option<usize>
    requires { HavePlaces (map T.key items.now) places.now }
    ensures within { IfSome result (λ place. place < length items.now) }
    ensures same { IfSome result (HoldsAt (λ x. T.key x ≡ key.now) items.now) }
{
    let _items = items;
    place_of_text(places, key)
}
