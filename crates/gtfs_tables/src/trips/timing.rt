ghost use Rattle.std.specs.Prelude.{◌≡◌, ◌&&◌, Some, None, if◌then◌else◌, is_none};
ghost use Rattle.gtfs_tables.specs.Trips.Timing.{early_row as said_row, last_time as last_of, time_after as said_time, timing_fault as said_fault, untimed_at as is_untimed_at};

use crate::trips::visits::Visit;

/// The first rule that the rows of one trip, by sequence, break together, and the row. Linear in the rows.
pub(crate) fn timing_fault(visits: &[Visit]) -> Option<(u8, u64)>
    ensures { result ≡ said_fault visits.now }
{
    if let Some(fault) = untimed_at(visits, 0) {
        return Some(fault);
    }
    if let Some(fault) = untimed_at(visits, visits.len().saturating_sub(1)) {
        return Some(fault);
    }
    early_row(visits).map(|row| (14, row))
}

// Whether the visit at this place, if there is one, has neither time.
fn untimed_at(visits: &[Visit], place: usize) -> Option<(u8, u64)>
    ensures { result ≡ is_untimed_at visits.now place }
{
    match visits.get(place) {
        Some(visit) => untimed(visit),
        None => None,
    }
}

fn untimed(visit: &Visit) -> Option<(u8, u64)>
    ensures { result ≡ (if is_none visit.now.arr && is_none visit.now.dep then Some (13, visit.now.row) else None) }
{
    match (visit.arr, visit.dep) {
        (None, None) => Some((13, visit.row)),
        _ => None,
    }
}

// The first row with a time that is earlier than the one before it.
fn early_row(visits: &[Visit]) -> Option<u64>
    ensures { result ≡ said_row 0 visits.now }
{
    let mut before = 0;
    'visits: for visit in visits {
        match time_after(before, visit.arr, visit.dep) {
            Some(after) => before = after,
            None => return Some(visit.row),
        }
    }
    None
}

// The last time after a row with these times; none where a time is earlier than the one before it.
fn time_after(before: u32, arr: Option<u32>, dep: Option<u32>) -> Option<u32>
    ensures { result ≡ said_time before arr dep }
{
    match (arr, dep) {
        (None, None) => Some(before),
        (Some(arr), None) => last_time(before, arr, arr),
        (None, Some(dep)) => last_time(before, dep, dep),
        (Some(arr), Some(dep)) => last_time(before, arr, dep),
    }
}

// The last of three times, or none where one is earlier than the one before it.
fn last_time(before: u32, arr: u32, dep: u32) -> Option<u32>
    ensures { result ≡ last_of before arr dep }
{
    if arr < before || dep < arr {
        None
    } else {
        Some(dep)
    }
}
