ghost use Rattle.std.specs.Prelude.{◌≡◌, ◌≢◌, ◌<◌, ◌⊎◌, None, Some, IfErr, IfOk, OnOk, length, map};
ghost use Rattle.std.specs.List.{AllPairs};
ghost use Rattle.std.specs.List.Sorted.{IsPermutation, IsSorted};
ghost use Rattle.std.specs.Ordering.{on};
ghost use Rattle.lc_model.specs.declared.stop.Stop.{Stop as SaidStop};
ghost use Rattle.lc_model.specs.Text.{id_cmp};
ghost use Rattle.gtfs_tables.specs.Fields.Columns.{row_at};
ghost use Rattle.gtfs_tables.specs.Fields.Rules.{IsUnbroken};
ghost use Rattle.gtfs_tables.specs.Fields.Table.{IsRowFault};
ghost use Rattle.gtfs_tables.specs.Fields.TextPlaces.{HavePlaces};
ghost use Rattle.gtfs_tables.specs.Trips.StopColumns.{AreStopColumns};
ghost use Rattle.gtfs_tables.specs.Trips.Stops.{AreStopsOf, HaveKnownParents, IsStopsFault, stop_ids, stop_of as said_stop, stop_rule_at};

use crate::FileFault;
use crate::fields::columns::{column, text};
use crate::fields::file_rows::file_rows;
use crate::fields::first_rule::first_rule;
use crate::fields::ids::{id_of, optional_id, text_of};
use crate::fields::places::is_before;
use crate::fields::text_places::{is_unknown, place_of_text, text_places, texts};
use gtfs_rows::Rows;
use lc_model::{NoMemory, Stop, Stops};
use std::alloc::Global;
use std::collections::BTreeMap;

// At most so many stops are read.
const MOST_STOPS: usize = 100_000;

/// The stops that stops.txt says, by their ids. Of n rows: n log n.
pub fn read_stops(alloc: Global, bytes: &[u8]) -> Result<Stops, FileFault>
    ensures stops { IfOk result (AreStopsOf bytes.now) }
    ensures parents { IfOk result HaveKnownParents }
    ensures fault { IfErr result (λ fault. (fault ≡ FileFault.NoMemory) ⊎ IsStopsFault bytes.now fault) }
{
    let rows = file_rows(alloc, bytes, &["stop_id"], MOST_STOPS)?;
    stops_of(alloc, &rows)
}

// The stops that these rows say, by their ids, or the first row that breaks a rule.
fn stops_of(alloc: Global, rows: &Rows) -> Result<Stops, FileFault>
    ensures unbroken { OnOk result (IsUnbroken (stop_rule_at rows.now) (length rows.now.rows)) }
    ensures are { IfOk result (IsPermutation (map (said_stop rows.now) rows.now.rows)) }
    ensures parents { IfOk result HaveKnownParents }
    ensures fault { IfErr result (λ fault. (fault ≡ FileFault.NoMemory) ⊎ IsRowFault (stop_rule_at rows.now) (length rows.now.rows) fault) }
{
    let columns = stop_columns(rows);
    check_rows(alloc, rows, columns)?;
    let stops = listed_stops(alloc, rows, columns)?;
    Ok(sorted_stops(stops)?)
}

/// The places of the columns of stops.txt.
#[derive(Clone, Copy)]
pub(crate) struct StopColumns {
    pub(crate) id: Option<usize>,
    pub(crate) name: Option<usize>,
    pub(crate) parent: Option<usize>,
}

fn stop_columns(rows: &Rows) -> StopColumns
    ensures { AreStopColumns rows.now result }
{
    StopColumns {
        id: column(rows, "stop_id"),
        name: column(rows, "stop_name"),
        parent: column(rows, "parent_station"),
    }
}

// Whether no row breaks a rule; else the first that does, and the rule.
fn check_rows(alloc: Global, rows: &Rows, columns: StopColumns) -> Result<(), FileFault>
    requires { AreStopColumns rows.now columns }
    ensures sound { OnOk result (IsUnbroken (stop_rule_at rows.now) (length rows.now.rows)) }
    ensures fault { IfErr result (λ fault. (fault ≡ FileFault.NoMemory) ⊎ IsRowFault (stop_rule_at rows.now) (length rows.now.rows) fault) }
{
    let ids = texts(alloc, rows, columns.id)?;
    let places = text_places(alloc, ids.as_slice())?;
    'rows: for place in 0..rows.len() {
        if let Some(rule) = rule_at(rows, columns, &places, place) {
            return Err(FileFault::Broken {
                rule,
                row: (place + 1) as u64,
            });
        }
    }
    Ok(())
}

// The first rule that the row at this place breaks.
fn rule_at<'a>(
    rows: &'a Rows,
    columns: StopColumns,
    places: &BTreeMap<&'a [u8], usize>,
    place: usize,
) -> Option<u8>
    requires there { place < length rows.now.rows }
    requires columns { AreStopColumns rows.now columns }
    requires places { HavePlaces (stop_ids rows.now) places.now }
    ensures { result ≡ stop_rule_at rows.now place }
{
    let id = text(rows, place, columns.id);
    let parent = text(rows, place, columns.parent);
    first_rule(&[
        (6, id.is_empty()),
        (7, is_before(place_of_text(places, id), place)),
        (10, is_unknown(places, parent)),
    ])
}

// The stops of the rows, in their order.
fn listed_stops(alloc: Global, rows: &Rows, columns: StopColumns) -> Result<Vec<Stop>, NoMemory>
    requires columns { AreStopColumns rows.now columns }
    requires sound { IsUnbroken (stop_rule_at rows.now) (length rows.now.rows) }
    ensures { IfOk result (λ stops. stops.items ≡ map (said_stop rows.now) rows.now.rows) }
{
    let mut stops = Vec::with_capacity(alloc, rows.len())?;
    'rows: for place in 0..rows.len() {
        stops.push(stop_at(alloc, rows, columns, place)?)?;
    }
    Ok(stops)
}

// The stop of the row at this place.
fn stop_at(alloc: Global, rows: &Rows, columns: StopColumns, place: usize) -> Result<Stop, NoMemory>
    requires there { place < length rows.now.rows }
    requires columns { AreStopColumns rows.now columns }
    requires sound { stop_rule_at rows.now place ≡ None }
    ensures { IfOk result (λ stop. stop ≡ said_stop rows.now (row_at rows.now place)) }
{
    let id = text(rows, place, columns.id);
    let name = text(rows, place, columns.name);
    let parent = text(rows, place, columns.parent);
    Ok(Stop {
        id: id_of(alloc, id)?,
        name: text_of(alloc, name)?,
        parent: optional_id(alloc, parent)?,
    })
}

// These stops by their ids.
fn sorted_stops(stops: Vec<Stop>) -> Result<Stops, NoMemory>
    requires { AllPairs (λ (x y : SaidStop). x.id ≢ y.id) stops.items }
    ensures { IfOk result (IsPermutation stops.items) }
{
    let mut sorted = stops;
    sort_by_id(&mut sorted)?;
    Ok(Stops::from_list(sorted))
}

fn sort_by_id(stops: &mut Vec<Stop>) -> Result<(), NoMemory>
    ensures permutation { IsPermutation stops.old.items stops.new.items }
    ensures sorted { OnOk result (IsSorted (on (λ s. s.id) id_cmp) stops.new.items) }
{
    stops.sort_by(|a, b| a.id.cmp(&b.id))?;
    Ok(())
}
