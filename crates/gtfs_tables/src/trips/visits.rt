ghost use Rattle.std.specs.Prelude.{◌≡◌, ◌≢◌, ◌<◌, ℕ, [], IfOk, length};
ghost use Rattle.std.specs.List.Sorted.{IsPermutation, IsSorted};
ghost use Rattle.gtfs_tables.specs.Fields.Columns.{row_at};
ghost use Rattle.gtfs_tables.specs.Trips.StopTimeColumns.{AreStopTimeColumns};
ghost use Rattle.gtfs_tables.specs.Trips.Trips.{trip_id_of};
ghost use Rattle.gtfs_tables.specs.Trips.Visits.{allows as is_allowed, visit_at as said_visit, visit_cmp, visits_of_rows};

use crate::fields::columns::text;
use crate::fields::ids::{id_of, optional_id};
use crate::fields::times::read_time;
use crate::trips::stop_time_rows::StopTimeColumns;
use gtfs_rows::Rows;
use lc_model::{Id, Keyed, NoMemory};
use lc_time::read_u32;
use std::alloc::Global;
use std::cmp::Ordering;

/// What a row of stop_times.txt says: when a trip is at a stop, in seconds of the service day, and the row, counted
/// from 1.
#[derive(Drop)]
pub struct Visit {
    pub(crate) trip: Id,
    pub(crate) stop: Option<Id>,
    pub(crate) seq: u32,
    pub(crate) arr: Option<u32>,
    pub(crate) dep: Option<u32>,
    pub(crate) board: bool,
    pub(crate) alight: bool,
    pub(crate) row: u64,
}

/// By the trip.
impl Keyed for Visit {
    ghost key = { λ visit. visit.trip };

    fn key(&self) -> &Id {
        &self.trip
    }
}

/// The visits of the rows, none of which breaks a rule by itself, by trip and sequence. Of n rows: n log n.
pub(crate) fn sorted_visits(
    alloc: Global,
    rows: &Rows,
    columns: StopTimeColumns,
) -> Result<Vec<Visit>, NoMemory>
    requires columns { AreStopTimeColumns rows.now columns }
    requires named { (place : ℕ) → place < length rows.now.rows → trip_id_of rows.now (row_at rows.now place) ≢ [] }
    ensures moved { IfOk result (λ visits. IsPermutation (visits_of_rows rows.now) visits.items) }
    ensures sorted { IfOk result (λ visits. IsSorted visit_cmp visits.items) }
{
    let visits = listed_visits(alloc, rows, columns)?;
    by_trip(visits)
}

// The visits of the rows, in their order.
fn listed_visits(
    alloc: Global,
    rows: &Rows,
    columns: StopTimeColumns,
) -> Result<Vec<Visit>, NoMemory>
    requires columns { AreStopTimeColumns rows.now columns }
    requires named { (place : ℕ) → place < length rows.now.rows → trip_id_of rows.now (row_at rows.now place) ≢ [] }
    ensures { IfOk result (λ visits. visits.items ≡ visits_of_rows rows.now) }
{
    let mut visits = Vec::with_capacity(alloc, rows.len())?;
    'rows: for place in 0..rows.len() {
        visits.push(visit_at(alloc, rows, columns, place)?)?;
    }
    Ok(visits)
}

// What the row at this place says.
fn visit_at(
    alloc: Global,
    rows: &Rows,
    columns: StopTimeColumns,
    place: usize,
) -> Result<Visit, NoMemory>
    requires there { place < length rows.now.rows }
    requires columns { AreStopTimeColumns rows.now columns }
    requires named { trip_id_of rows.now (row_at rows.now place) ≢ [] }
    ensures { IfOk result (λ visit. visit ≡ said_visit rows.now place) }
{
    // There are fewer rows than `usize` counts.
    let _count = rows.len();
    let trip = text(rows, place, columns.trip);
    let stop = text(rows, place, columns.stop);
    Ok(Visit {
        trip: id_of(alloc, trip)?,
        stop: optional_id(alloc, stop)?,
        seq: read_u32(text(rows, place, columns.seq)).unwrap_or(0),
        arr: read_time(text(rows, place, columns.arr)),
        dep: read_time(text(rows, place, columns.dep)),
        board: allows(text(rows, place, columns.pickup)),
        alight: allows(text(rows, place, columns.drop_off)),
        row: (place + 1) as u64,
    })
}

// Whether a pickup_type or drop_off_type allows to board or alight.
pub(crate) fn allows(text: &[u8]) -> bool
    ensures { result ≡ is_allowed text.now }
{
    text != b"1".as_slice()
}

pub(crate) fn by_trip(visits: Vec<Visit>) -> Result<Vec<Visit>, NoMemory>
    ensures moved { IfOk result (λ sorted. IsPermutation visits.items sorted.items) }
    ensures sorted { IfOk result (λ sorted. IsSorted visit_cmp sorted.items) }
{
    let mut sorted = visits;
    sorted.sort_by(|x, y| compare(x, y))?;
    Ok(sorted)
}

pub(crate) fn compare(x: &Visit, y: &Visit) -> Ordering
    ensures { result ≡ visit_cmp x.now y.now }
{
    // Most rows are of the trip of the row before, and two ids are sooner seen to be one than put in order.
    if x.trip == y.trip {
        return x.seq.cmp(&y.seq);
    }
    x.trip.cmp(&y.trip)
}
