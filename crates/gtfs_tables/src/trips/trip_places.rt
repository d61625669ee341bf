ghost use Rattle.std.specs.Prelude.{◌≡◌, ℕ, ◌+◌, ◌≤◌, false, length, true};
ghost use Rattle.std.specs.List.{between};
ghost use Rattle.std.specs.List.Sorted.{IsSorted};
ghost use Rattle.std.specs.Ordering.{on};
ghost use Rattle.lc_model.specs.Text.{id_cmp};
ghost use Rattle.gtfs_tables.specs.Trips.Timing.{visits_of};
ghost use Rattle.gtfs_tables.specs.Trips.TripPlaces.{BeginAt, EndAt, is_visit_of};

use crate::trips::visits::Visit;
use lc_model::Id;

/// Where the visits of a trip begin and end, of visits that are sorted by trip. They may begin at the place `near`. Linear in
/// the visits of the trip; takes the logarithm of all visits where they do not begin there.
pub(crate) fn places_of_trip(visits: &[Visit], trip: &Id, near: usize) -> (usize, usize)
    requires { IsSorted (on (λ v. v.trip) id_cmp) visits.now }
    ensures low { result.0 ≤ result.1 }
    ensures high { result.1 ≤ length visits.now }
    ensures are { visits_of visits.now trip.now ≡ between result.0 result.1 visits.now }
{
    let first = first_of(visits, trip, near);
    let end = end_of(visits, trip, first);
    (first, end)
}

// Where the visits of a trip begin, or would begin. They may begin at the place `near`.
fn first_of(visits: &[Visit], trip: &Id, near: usize) -> usize
    requires { IsSorted (on (λ v. v.trip) id_cmp) visits.now }
    ensures { BeginAt visits.now trip.now result }
{
    if begin_at(visits, trip, near) {
        return near;
    }
    visits.partition_point(|visit| visit.trip < *trip)
}

// Whether the visits of a trip begin at this place.
fn begin_at(visits: &[Visit], trip: &Id, place: usize) -> bool
    ensures here { result ≡ true → is_visit_of visits.now trip.now place ≡ true }
    ensures first { result ≡ true → (before : ℕ) → before + 1 ≡ place → is_visit_of visits.now trip.now before ≡ false }
{
    if !is_of(visits, trip, place) {
        return false;
    }
    if place == 0 {
        return true;
    }
    !is_of(visits, trip, place - 1)
}

// The first place from this one on at which no visit of the trip is.
fn end_of(visits: &[Visit], trip: &Id, first: usize) -> usize
    requires { first ≤ length visits.now }
    ensures { EndAt visits.now trip.now first result }
{
    'visits: for place in first..visits.len() {
        if !is_of(visits, trip, place) {
            return place;
        }
    }
    visits.len()
}

// Whether the visit at this place is of the trip.
fn is_of(visits: &[Visit], trip: &Id, place: usize) -> bool
    ensures { result ≡ is_visit_of visits.now trip.now place }
{
    match visits.get(place) {
        Some(visit) => visit.trip == *trip,
        None => false,
    }
}
