ghost use Rattle.std.specs.Prelude.{◌≡◌, ◌<◌, ◌↔◌, IsTrue, MatchOption, Some, length};
ghost use Rattle.lc_model.specs.Question.{IsEnd};
ghost use Rattle.lc_model.specs.Stop.{InStopOrder};
ghost use Rattle.csa_scan.specs.PlaceOf.{IsPlaceOf, LacksId};
ghost use Rattle.csa_scan.specs.Reach.{id_at};

use crate::guesses::{Guesses, slot_of_stop};
use lc_model::{Id, Stop};

/// The place of the stop of this id. Takes the logarithm of the stops.
pub fn place_of(stops: &[Stop], id: &Id) -> Option<usize>
    requires { InStopOrder stops.now }
    ensures { MatchOption result (LacksId stops.now id.now) (IsPlaceOf stops.now id.now) }
{
    stops.binary_search_by(|stop| stop.id.cmp(id)).ok()
}

/// Whether the stop at the place has this id.
fn is_at(stops: &[Stop], place: usize, id: &Id) -> bool
    requires { InStopOrder stops.now }
    ensures { IsTrue result → IsPlaceOf stops.now id.now place }
{
    match stops.get(place) {
        Some(stop) => stop.id == *id,
        None => false,
    }
}

/// The place of the stop of this id. Takes the logarithm of the stops where it was another one that was found last by the guess.
pub fn guessed_place(guesses: &mut Guesses, stops: &[Stop], id: &Id) -> Option<usize>
    requires { InStopOrder stops.now }
    ensures { MatchOption result (LacksId stops.now id.now) (IsPlaceOf stops.now id.now) }
{
    let slot = slot_of_stop(id);
    let guess = guesses.at(slot);
    if is_at(stops, guess, id) {
        return Some(guess);
    }
    let place = place_of(stops, id)?;
    guesses.put(slot, place);
    Some(place)
}

/// Whether the stop has this parent.
pub fn has_parent(stop: &Stop, named: &Id) -> bool
    ensures { IsTrue result ↔ (stop.now.parent ≡ Some named.now) }
{
    match &stop.parent {
        Some(parent) => parent == named,
        None => false,
    }
}

/// Whether the stop at the place is the named one or a child of it.
pub fn is_end(stops: &[Stop], place: usize, named: &Id) -> bool
    requires in_order { InStopOrder stops.now }
    requires within { place < length stops.now }
    ensures { IsTrue result ↔ IsEnd stops.now named.now (id_at stops.now place) }
{
    let stop = &stops[place];
    stop.id == *named || has_parent(stop, named)
}
