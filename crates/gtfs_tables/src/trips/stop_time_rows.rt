ghost use Rattle.std.specs.Prelude.{◌≡◌, ◌<◌, ◌⊎◌, ◌==◌, ◌&&◌, ◌||◌, ℕ, List, Option, IfErr, IfOk, OnOk, is_some, length, map, not};
ghost use Rattle.lc_model.specs.declared.stop.Stop.{Stop as SaidStop};
ghost use Rattle.gtfs_tables.specs.Fields.Columns.{row_at};
ghost use Rattle.gtfs_tables.specs.Fields.Places.{stands_twice};
ghost use Rattle.gtfs_tables.specs.Fields.Rules.{IsUnbroken};
ghost use Rattle.gtfs_tables.specs.Fields.Times.{is_wrong_time as wrong_time};
ghost use Rattle.gtfs_tables.specs.Fields.Table.{IsRowFault};
ghost use Rattle.gtfs_tables.specs.declared.fields.trip_rows.TripRow.{TripRow as Trip};
ghost use Rattle.gtfs_tables.specs.Trips.KeyPlaces.{HaveKeyPlaces, IsKnown, lent_key};
ghost use Rattle.gtfs_tables.specs.Trips.StopTimeColumns.{AreStopTimeColumns};
ghost use Rattle.gtfs_tables.specs.Trips.StopTimeRows.{key_of as said_key, same_key, stop_time_keys, stop_time_rule_at};

use crate::fields::columns::{column, text};
use crate::fields::first_rule::first_rule;
use crate::fields::known::places_of_ids;
use crate::fields::places::{first_places, is_before, place_of};
use crate::fields::text_places::{is_unknown, place_of_text};
use crate::fields::times::is_wrong_time;
use crate::{FileFault, TripRow};
use gtfs_rows::Rows;
use lc_model::{NoMemory, Stop};
use lc_time::read_u32;
use std::alloc::Global;
use std::collections::BTreeMap;

/// Where the columns of stop_times.txt are, from 0.
#[derive(Clone, Copy)]
pub(crate) struct StopTimeColumns {
    pub(crate) trip: Option<usize>,
    pub(crate) stop: Option<usize>,
    pub(crate) seq: Option<usize>,
    pub(crate) arr: Option<usize>,
    pub(crate) dep: Option<usize>,
    pub(crate) pickup: Option<usize>,
    pub(crate) drop_off: Option<usize>,
}

/// The places of the columns in a table. Linear in its columns.
pub(crate) fn stop_time_columns(rows: &Rows) -> StopTimeColumns
    ensures { AreStopTimeColumns rows.now result }
{
    StopTimeColumns {
        trip: column(rows, "trip_id"),
        stop: column(rows, "stop_id"),
        seq: column(rows, "stop_sequence"),
        arr: column(rows, "arrival_time"),
        dep: column(rows, "departure_time"),
        pickup: column(rows, "pickup_type"),
        drop_off: column(rows, "drop_off_type"),
    }
}

/// The first places of the keys of the rows, of the ids of stops and of those of trips.
#[derive(Drop)]
pub(crate) struct Known<'a> {
    keys: BTreeMap<(&'a [u8], Option<u32>), usize>,
    stops: BTreeMap<&'a [u8], usize>,
    trips: BTreeMap<&'a [u8], usize>,
}

/// Whether no row breaks a rule, each looked at by itself; else the first that does, and the rule. Of n rows, stops and
/// trips: n log n.
pub(crate) fn check_rows<'a>(
    alloc: Global,
    rows: &'a Rows,
    columns: StopTimeColumns,
    stops: &'a [Stop],
    trips: &'a [TripRow],
) -> Result<(), FileFault>
    requires { AreStopTimeColumns rows.now columns }
    ensures sound { OnOk result (IsUnbroken (stop_time_rule_at stops.now trips.now rows.now) (length rows.now.rows)) }
    ensures fault { IfErr result (λ fault. (fault ≡ FileFault.NoMemory) ⊎ IsRowFault (stop_time_rule_at stops.now trips.now rows.now) (length rows.now.rows) fault) }
{
    let known = known_of(alloc, rows, columns, stops, trips)?;
    'rows: for place in 0..rows.len() {
        if let Some(rule) = rule_at(rows, columns, &known, place) {
            return Err(FileFault::Broken {
                rule,
                row: (place + 1) as u64,
            });
        }
    }
    Ok(())
}

fn known_of<'a>(
    alloc: Global,
    rows: &'a Rows,
    columns: StopTimeColumns,
    stops: &'a [Stop],
    trips: &'a [TripRow],
) -> Result<Known<'a>, NoMemory>
    requires { AreStopTimeColumns rows.now columns }
    ensures { IfOk result (IsKnown stops.now trips.now rows.now) }
{
    Ok(Known {
        keys: row_key_places(alloc, rows, columns)?,
        stops: places_of_ids(alloc, stops)?,
        trips: places_of_ids(alloc, trips)?,
    })
}

// The first places of the keys of the rows.
fn row_key_places<'a>(
    alloc: Global,
    rows: &'a Rows,
    columns: StopTimeColumns,
) -> Result<BTreeMap<(&'a [u8], Option<u32>), usize>, NoMemory>
    requires { AreStopTimeColumns rows.now columns }
    ensures { IfOk result (HaveKeyPlaces (stop_time_keys rows.now)) }
{
    let keys = keys_of_rows(alloc, rows, columns)?;
    key_places(alloc, keys.as_slice())
}

// The keys of the rows, in their order.
fn keys_of_rows<'a>(
    alloc: Global,
    rows: &'a Rows,
    columns: StopTimeColumns,
) -> Result<Vec<(&'a [u8], Option<u32>)>, NoMemory>
    requires { AreStopTimeColumns rows.now columns }
    ensures { IfOk result (λ keys. map lent_key keys.items ≡ stop_time_keys rows.now) }
{
    let mut keys = Vec::with_capacity(alloc, rows.len())?;
    'rows: for place in 0..rows.len() {
        keys.push(key_at(rows, columns, place))?;
    }
    Ok(keys)
}

fn key_at<'a>(rows: &'a Rows, columns: StopTimeColumns, place: usize) -> (&'a [u8], Option<u32>)
    requires there { place < length rows.now.rows }
    requires columns { AreStopTimeColumns rows.now columns }
    ensures { lent_key result ≡ said_key rows.now (row_at rows.now place) }
{
    let trip = text(rows, place, columns.trip);
    let seq = read_u32(text(rows, place, columns.seq));
    (trip, seq)
}

fn key_places<'a>(
    alloc: Global,
    keys: &[(&'a [u8], Option<u32>)],
) -> Result<BTreeMap<(&'a [u8], Option<u32>), usize>, NoMemory>
    ensures { IfOk result (HaveKeyPlaces (map lent_key keys.now)) }
{
    first_places(alloc, keys)
}

// The first rule that the row at this place breaks.
fn rule_at<'a>(
    rows: &'a Rows,
    columns: StopTimeColumns,
    known: &Known<'a>,
    place: usize,
) -> Option<u8>
    requires there { place < length rows.now.rows }
    requires columns { AreStopTimeColumns rows.now columns }
    ensures { (stops : List SaidStop) → (trips : List Trip) → IsKnown stops trips rows.now known.now → result ≡ stop_time_rule_at stops trips rows.now place }
{
    let trip = text(rows, place, columns.trip);
    let stop = text(rows, place, columns.stop);
    let seq = read_u32(text(rows, place, columns.seq));
    let arr = text(rows, place, columns.arr);
    let dep = text(rows, place, columns.dep);
    first_rule(&[
        (6, trip.is_empty()),
        (7, is_second(&known.keys, trip, seq, place)),
        (8, is_unknown(&known.stops, stop)),
        (9, place_of_text(&known.trips, trip).is_none()),
        (11, seq.is_none()),
        (12, has_wrong_time(stop, arr, dep)),
    ])
}

// Whether a trip and a number are at an earlier place too.
fn is_second<'a>(
    places: &BTreeMap<(&'a [u8], Option<u32>), usize>,
    trip: &'a [u8],
    seq: Option<u32>,
    place: usize,
) -> bool
    ensures { (keys : List (List ℕ × Option ℕ)) → HaveKeyPlaces keys places.now → result ≡ (is_some seq && stands_twice same_key keys place (trip.now, seq)) }
{
    seq.is_some() && is_before(place_of(places, (trip, seq)), place)
}

// Whether a row with a stop has a time that is unreadable.
fn has_wrong_time(stop: &[u8], arr: &[u8], dep: &[u8]) -> bool
    ensures { result ≡ (not (length stop.now == 0) && (wrong_time arr.now || wrong_time dep.now)) }
{
    !stop.is_empty() && (is_wrong_time(arr) || is_wrong_time(dep))
}
