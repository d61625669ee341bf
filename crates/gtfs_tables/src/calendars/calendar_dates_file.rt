ghost use Rattle.std.specs.Prelude.{◌≡◌, ◌<◌, ◌⊎◌, Some, IfErr, IfOk, length, map};
ghost use Rattle.gtfs_tables.specs.Fields.Columns.{row_at};
ghost use Rattle.gtfs_tables.specs.Fields.PairPlaces.{HavePairPlaces};
ghost use Rattle.gtfs_tables.specs.Fields.Rules.{IsUnbroken, first_of};
ghost use Rattle.gtfs_tables.specs.Fields.Fields.{ReadsItem, ReadsRow};
ghost use Rattle.gtfs_tables.specs.Fields.Table.{IsRowFault};
ghost use Rattle.gtfs_tables.specs.Calendars.CalendarDates.{AreDates, IsCalendarDatesFault, added_said, calendar_dates_rule, date_keys_of, date_row_of, date_row_rules, date_row_said};
ghost use Rattle.gtfs_tables.specs.Calendars.CalendarDatesColumns.{AreDateColumns};

use crate::FileFault;
use crate::calendars::{DateRow, DateRows};
use crate::fields::columns::{column, text};
use crate::fields::fields::{choice, date, id, in_row};
use crate::fields::pair_places::{pair_places, pairs, place_of_pair};
use crate::fields::places::is_before;
use crate::fields::table_rows::table_rows;
use gtfs_rows::Rows;
use lc_model::{Id, ServiceDate};
use std::alloc::Global;
use std::collections::BTreeMap;

/// The rows of a calendar_dates.txt, in the order of the file (GTFS Schedule Reference, calendar_dates.txt), or the first
/// broken rule. Rules 2 to 5 are of the file. In a row 6 is of an absent service, 7 of a service and a date that are there
/// before. 11 is of an exception_type that is neither 1 nor 2, 12 of an unreadable date. Of n rows: n log n.
pub fn read_calendar_dates(alloc: Global, bytes: &[u8]) -> Result<DateRows, FileFault>
    ensures ok { IfOk result (AreDates bytes.now) }
    ensures fault { IfErr result (λ fault. (fault ≡ FileFault.NoMemory) ⊎ IsCalendarDatesFault bytes.now fault) }
{
    let rows = table_rows(alloc, bytes, &["service_id", "date", "exception_type"])?;
    let list = date_rows(alloc, &rows)?;
    Ok(DateRows::from_list(list))
}

// What these rows say, each by itself, or the first rule that one breaks.
fn date_rows(alloc: Global, rows: &Rows) -> Result<Vec<DateRow>, FileFault>
    ensures unbroken { IfOk result (λ _. IsUnbroken (calendar_dates_rule rows.now) (length rows.now.rows)) }
    ensures listed { IfOk result (λ list. map Some list.items ≡ map (date_row_said rows.now) rows.now.rows) }
    ensures fault { IfErr result (λ fault. (fault ≡ FileFault.NoMemory) ⊎ IsRowFault (calendar_dates_rule rows.now) (length rows.now.rows) fault) }
{
    let columns = date_columns(rows);
    let keys = pairs(alloc, rows, columns.service, columns.date)?;
    let places = pair_places(alloc, keys.as_slice())?;
    date_rows_by(alloc, rows, columns, &places)
}

// What these rows say, by the first places of services with their dates, or the first rule that one breaks.
fn date_rows_by<'a>(
    alloc: Global,
    rows: &'a Rows,
    columns: DateColumns,
    places: &BTreeMap<(&'a [u8], &'a [u8]), usize>,
) -> Result<Vec<DateRow>, FileFault>
    requires columns { AreDateColumns rows.now columns }
    requires places { HavePairPlaces (date_keys_of rows.now) places.now }
    ensures unbroken { IfOk result (λ _. IsUnbroken (calendar_dates_rule rows.now) (length rows.now.rows)) }
    ensures listed { IfOk result (λ list. map Some list.items ≡ map (date_row_said rows.now) rows.now.rows) }
    ensures fault { IfErr result (λ fault. (fault ≡ FileFault.NoMemory) ⊎ IsRowFault (calendar_dates_rule rows.now) (length rows.now.rows) fault) }
{
    let mut list = Vec::new(alloc);
    'rows: for place in 0..rows.len() {
        let date_row = date_row_at(alloc, rows, columns, places, place)?;
        list.push(date_row)?;
    }
    Ok(list)
}

/// The places of the columns of calendar_dates.txt.
#[derive(Clone, Copy)]
pub(crate) struct DateColumns {
    pub(crate) service: Option<usize>,
    pub(crate) date: Option<usize>,
    pub(crate) kind: Option<usize>,
}

fn date_columns(rows: &Rows) -> DateColumns
    ensures { AreDateColumns rows.now result }
{
    DateColumns {
        service: column(rows, "service_id"),
        date: column(rows, "date"),
        kind: column(rows, "exception_type"),
    }
}

// What the row at this place says, or the first rule that it breaks.
fn date_row_at<'a>(
    alloc: Global,
    rows: &'a Rows,
    columns: DateColumns,
    places: &BTreeMap<(&'a [u8], &'a [u8]), usize>,
    place: usize,
) -> Result<DateRow, FileFault>
    requires there { place < length rows.now.rows }
    requires columns { AreDateColumns rows.now columns }
    requires places { HavePairPlaces (date_keys_of rows.now) places.now }
    ensures { ReadsRow (calendar_dates_rule rows.now place) (date_row_said rows.now (row_at rows.now place)) place result }
{
    let name = text(rows, place, columns.service);
    let day = text(rows, place, columns.date);
    let again = is_before(place_of_pair(places, (name, day)), place);
    let service = id(alloc, name)?;
    let added = added(text(rows, place, columns.kind));
    in_row(rows, place, date_row(service, again, added, date(day)))
}

// Whether an exception_type adds or takes away.
fn added(text: &[u8]) -> Option<bool>
    ensures { result ≡ added_said text.now }
{
    choice(text, b"1", b"2")
}

// The row that these say, or the first rule that they break.
fn date_row(
    service: Option<Id>,
    again: bool,
    added: Option<bool>,
    date: Option<ServiceDate>,
) -> Result<DateRow, u8>
    ensures { ReadsItem (first_of (date_row_rules service again added date)) (date_row_of service added date) result }
{
    let Some(service) = service else {
        return Err(6);
    };
    if again {
        return Err(7);
    }
    let Some(added) = added else {
        return Err(11);
    };
    let Some(date) = date else {
        return Err(12);
    };
    Ok(DateRow {
        service,
        date,
        added,
    })
}
