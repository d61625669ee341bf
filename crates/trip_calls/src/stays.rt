ghost use Rattle.std.specs.Prelude.{◌≡◌, ◌+◌, ◌<◌, ◌≤◌, ◌++◌, IfOk, OnOk, length, vec_len};
ghost use Rattle.gtfs_tables.specs.Trips.Timely.{AreTimelyRows};
ghost use Rattle.trip_calls.specs.BlankTimes.{time_between};
ghost use Rattle.trip_calls.specs.Stays.{AreStaysTo, NoneLater, blank_after, blank_stays, first_arrival, stay_said, stays_upto};

use gtfs_tables::StopTime;
use lc_model::NoMemory;
use std::alloc::Global;

/// When a trip arrives at a stop and departs, in seconds of a service day.
#[derive(Clone, Copy, PartialEq, Eq)]
pub(crate) struct Stay {
    pub(crate) arr: u32,
    pub(crate) dep: u32,
}

/// The stays of a trip at the stops of its rows, by sequence. Linear in the rows.
pub(crate) fn stays(alloc: Global, rows: &[StopTime]) -> Result<Vec<Stay>, NoMemory>
    requires { AreTimelyRows rows.now }
    ensures { IfOk result (λ stays. stays.items ≡ stays_upto rows.now (length rows.now)) }
{
    let mut stays = Vec::with_capacity(alloc, rows.len())?;
    'rows: for place in 0..rows.len() {
        push_row(&mut stays, rows, place)?;
    }
    Ok(stays)
}

// Adds the stay of the row at this place, and those of the rows without a time before it, if it has a time.
fn push_row(stays: &mut Vec<Stay>, rows: &[StopTime], place: usize) -> Result<(), NoMemory>
    requires there { place < length rows.now }
    requires timely { AreTimelyRows rows.now }
    requires so_far { AreStaysTo rows.now place stays.old.items }
    ensures { OnOk result (AreStaysTo rows.now (place + 1) stays.new.items) }
{
    if let Some(stay) = stay_said(&rows[place]) {
        push_blank(stays, place, stay.arr)?;
        stays.push(stay)?;
    }
    Ok(())
}

// The stay that a row says, if it has a time. A row with one of its two times uses it for both.
fn stay_said(row: &StopTime) -> Option<Stay>
    ensures { result ≡ stay_said row.now }
{
    match (row.arr, row.dep) {
        (Some(arr), Some(dep)) => Some(Stay { arr, dep }),
        (Some(arr), None) => Some(Stay { arr, dep: arr }),
        (None, Some(dep)) => Some(Stay { arr: dep, dep }),
        (None, None) => None,
    }
}

// Adds the stays of the rows between the last stay and this place, where the trip arrives at this second.
fn push_blank(stays: &mut Vec<Stay>, after: usize, arrives: u32) -> Result<(), NoMemory>
    requires none_later { NoneLater stays.old.items arrives }
    requires not_past { vec_len stays.old ≤ after }
    ensures { OnOk result (stays.new.items ≡ stays.old.items ++ blank_after stays.old.items after arrives) }
{
    let count = stays.len();
    if count == 0 {
        return Ok(());
    }
    let departs = stays[count - 1].dep;
    push_between(stays, departs, count - 1, after, arrives)
}

// Adds the stays at the places between two, where the trip departs from the one and arrives at the other.
fn push_between(
    stays: &mut Vec<Stay>,
    departs: u32,
    before: usize,
    after: usize,
    arrives: u32,
) -> Result<(), NoMemory>
    requires in_order { departs ≤ arrives }
    requires ahead { before < after }
    ensures { OnOk result (stays.new.items ≡ stays.old.items ++ blank_stays departs before after arrives) }
{
    let first = before + 1;
    'places: for place in first..after {
        let time = time_between(departs, before, place, after, arrives);
        let (arr, dep) = (time, time);
        stays.push(Stay { arr, dep })?;
    }
    Ok(())
}

// When the trip is at a place between two, the seconds between being spread evenly over the places.
fn time_between(departs: u32, before: usize, place: usize, after: usize, arrives: u32) -> u32
    requires in_order { departs ≤ arrives }
    requires behind { before < place }
    requires ahead { place < after }
    ensures { result ≡ time_between departs before place after arrives }
{
    let whole = u128::from(arrives - departs) * (place - before) as u128;
    departs + (whole / (after - before) as u128) as u32
}

/// The arrival of the first stay, if there is one.
pub(crate) fn first_arrival(stays: &[Stay]) -> u32
    ensures { result ≡ first_arrival stays.now }
{
    match stays.first() {
        Some(stay) => stay.arr,
        None => 0,
    }
}
