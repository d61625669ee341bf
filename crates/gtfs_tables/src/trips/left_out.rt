ghost use Rattle.std.specs.Prelude.{◌≡◌, ◌&&◌, ◌||◌, ℕ, IfOk, List, OnOk, is_none};
ghost use Rattle.std.specs.List.{list_any};
ghost use Rattle.gtfs_tables.specs.Trips.LeftOut.{AreSorted, is_in};
ghost use Rattle.gtfs_tables.specs.Trips.Timing.{is_left_out};
ghost use Rattle.lc_model.specs.Change.{is_same_id};

use crate::trips::visits::Visit;
use lc_model::{Id, Keyed, NoMemory, PlainData, sorted_keys};
use std::alloc::Global;

/// A trip of which a row names no stop.
#[derive(Drop)]
pub(crate) struct Stopless {
    pub(crate) trip: Id,
}

impl Keyed for Stopless {
    ghost key = { λ stopless. stopless.trip };

    fn key(&self) -> &Id {
        &self.trip
    }
}

/// The trips of the visits that name no stop, one for each such visit. Linear in the visits.
pub(crate) fn stopless_trips(alloc: Global, visits: &[Visit]) -> Result<Vec<Stopless>, NoMemory>
    ensures { IfOk result (λ left. (trip : List ℕ) → list_any (λ s. is_same_id s.trip trip) left.items ≡ is_left_out visits.now trip) }
{
    let mut stopless = Vec::new(alloc);
    'visits: for visit in visits {
        push_if_stopless(alloc, &mut stopless, visit)?;
    }
    Ok(stopless)
}

fn push_if_stopless(
    alloc: Global,
    stopless: &mut Vec<Stopless>,
    visit: &Visit,
) -> Result<(), NoMemory>
    ensures { OnOk result ((trip : List ℕ) → list_any (λ s. is_same_id s.trip trip) stopless.new.items
        ≡ (list_any (λ s. is_same_id s.trip trip) stopless.old.items || (is_none visit.now.stop && is_same_id visit.now.trip trip))) }
{
    match visit.stop {
        Some(_) => Ok(()),
        None => {
            stopless.push(Stopless {
                trip: visit.trip.copy(alloc)?,
            })?;
            Ok(())
        }
    }
}

/// The trips of these, sorted. Of n: n log n.
pub(crate) fn trips_of<'a>(
    alloc: Global,
    stopless: &'a [Stopless],
) -> Result<Vec<&'a [u8]>, NoMemory>
    ensures sorted { IfOk result (λ left. AreSorted left.items) }
    ensures are { IfOk result (λ left. (trip : List ℕ) → is_in left.items trip ≡ list_any (λ s. is_same_id s.trip trip) stopless.now) }
{
    let left = sorted_keys(alloc, stopless)?;
    Ok(left)
}

/// Whether a trip is one of these, which are sorted. Takes the logarithm of their number.
pub(crate) fn is_left(left: &[&[u8]], trip: &Id) -> bool
    requires { AreSorted left.now }
    ensures { result ≡ is_in left.now trip.now }
{
    trip.is_among(left)
}
