ghost use Rattle.std.specs.Prelude.{◌≡◌, ◌<◌, ◌⊎◌, ◌==◌, ◌||◌, None, IfErr, IfOk, OnOk, length, map};
ghost use Rattle.gtfs_tables.specs.Fields.Columns.{row_at};
ghost use Rattle.gtfs_tables.specs.Fields.Rules.{IsUnbroken};
ghost use Rattle.gtfs_tables.specs.Fields.Table.{IsRowFault};
ghost use Rattle.gtfs_tables.specs.Fields.TextPlaces.{HavePlaces};
ghost use Rattle.gtfs_tables.specs.Trips.TripColumns.{AreTripColumns};
ghost use Rattle.gtfs_tables.specs.Trips.Trips.{AreTripsOf, IsTripsFault, trip_ids, trip_of as said_trip, trip_rule_at};

use crate::fields::columns::{column, text};
use crate::fields::file_rows::file_rows;
use crate::fields::first_rule::first_rule;
use crate::fields::ids::id_of;
use crate::fields::places::is_before;
use crate::fields::text_places::{place_of_text, text_places, texts};
use crate::{FileFault, TripRow, TripRows};
use gtfs_rows::Rows;
use lc_model::NoMemory;
use std::alloc::Global;
use std::collections::BTreeMap;

// At most so many trips are read.
const MOST_TRIPS: usize = 500_000;

/// The trips that trips.txt says, in the order of the file. Of n rows: n log n.
pub fn read_trips(alloc: Global, bytes: &[u8]) -> Result<TripRows, FileFault>
    ensures trips { IfOk result (AreTripsOf bytes.now) }
    ensures fault { IfErr result (λ fault. (fault ≡ FileFault.NoMemory) ⊎ IsTripsFault bytes.now fault) }
{
    let rows = file_rows(alloc, bytes, &["trip_id", "service_id"], MOST_TRIPS)?;
    let columns = trip_columns(&rows);
    check_rows(alloc, &rows, columns)?;
    let trips = listed_trips(alloc, &rows, columns)?;
    Ok(TripRows::from_list(trips))
}

/// The places of the columns of trips.txt.
#[derive(Clone, Copy)]
pub(crate) struct TripColumns {
    pub(crate) trip: Option<usize>,
    pub(crate) service: Option<usize>,
}

fn trip_columns(rows: &Rows) -> TripColumns
    ensures { AreTripColumns rows.now result }
{
    TripColumns {
        trip: column(rows, "trip_id"),
        service: column(rows, "service_id"),
    }
}

// Whether no row breaks a rule; else the first that does, and the rule.
fn check_rows(alloc: Global, rows: &Rows, columns: TripColumns) -> Result<(), FileFault>
    requires { AreTripColumns rows.now columns }
    ensures sound { OnOk result (IsUnbroken (trip_rule_at rows.now) (length rows.now.rows)) }
    ensures fault { IfErr result (λ fault. (fault ≡ FileFault.NoMemory) ⊎ IsRowFault (trip_rule_at rows.now) (length rows.now.rows) fault) }
{
    let ids = texts(alloc, rows, columns.trip)?;
    let places = text_places(alloc, ids.as_slice())?;
    'rows: for place in 0..rows.len() {
        if let Some(rule) = rule_at(rows, columns, &places, place) {
            return Err(FileFault::Broken {
                rule,
                row: (place + 1) as u64,
            });
        }
    }
    Ok(())
}

// The first rule that the row at this place breaks.
fn rule_at<'a>(
    rows: &'a Rows,
    columns: TripColumns,
    places: &BTreeMap<&'a [u8], usize>,
    place: usize,
) -> Option<u8>
    requires there { place < length rows.now.rows }
    requires columns { AreTripColumns rows.now columns }
    requires places { HavePlaces (trip_ids rows.now) places.now }
    ensures { result ≡ trip_rule_at rows.now place }
{
    let id = text(rows, place, columns.trip);
    let service = text(rows, place, columns.service);
    first_rule(&[
        (6, one_is_empty(id, service)),
        (7, is_before(place_of_text(places, id), place)),
    ])
}

fn one_is_empty(x: &[u8], y: &[u8]) -> bool
    ensures { result ≡ ((length x.now == 0) || (length y.now == 0)) }
{
    x.is_empty() || y.is_empty()
}

// The trips of the rows, in their order.
fn listed_trips(alloc: Global, rows: &Rows, columns: TripColumns) -> Result<Vec<TripRow>, NoMemory>
    requires columns { AreTripColumns rows.now columns }
    requires sound { IsUnbroken (trip_rule_at rows.now) (length rows.now.rows) }
    ensures { IfOk result (λ trips. trips.items ≡ map (said_trip rows.now) rows.now.rows) }
{
    let mut trips = Vec::with_capacity(alloc, rows.len())?;
    'rows: for place in 0..rows.len() {
        trips.push(trip_at(alloc, rows, columns, place)?)?;
    }
    Ok(trips)
}

// The trip of the row at this place.
fn trip_at(
    alloc: Global,
    rows: &Rows,
    columns: TripColumns,
    place: usize,
) -> Result<TripRow, NoMemory>
    requires there { place < length rows.now.rows }
    requires columns { AreTripColumns rows.now columns }
    requires sound { trip_rule_at rows.now place ≡ None }
    ensures { IfOk result (λ trip. trip ≡ said_trip rows.now (row_at rows.now place)) }
{
    let trip = text(rows, place, columns.trip);
    let service = text(rows, place, columns.service);
    Ok(TripRow {
        trip: id_of(alloc, trip)?,
        service: id_of(alloc, service)?,
    })
}
