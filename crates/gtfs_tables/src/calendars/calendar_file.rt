ghost use Rattle.std.specs.Prelude.{◌≡◌, ◌<◌, ◌⊎◌, Some, IfErr, IfOk, length, map};
ghost use Rattle.gtfs_tables.specs.Fields.Columns.{row_at};
ghost use Rattle.gtfs_tables.specs.Fields.Rules.{IsUnbroken, first_of};
ghost use Rattle.gtfs_tables.specs.Fields.Fields.{ReadsItem, ReadsRow};
ghost use Rattle.gtfs_tables.specs.Fields.Table.{IsRowFault};
ghost use Rattle.gtfs_tables.specs.Fields.TextPlaces.{HavePlaces};
ghost use Rattle.gtfs_tables.specs.Calendars.Calendar.{AreWeekly, IsCalendarFault, calendar_rule, services_of, weekday_said, weekdays_said, weekly_of, weekly_rules, weekly_said};
ghost use Rattle.gtfs_tables.specs.Calendars.CalendarColumns.{AreCalendarColumns};

use crate::FileFault;
use crate::calendars::{Weekly, WeeklyList};
use crate::fields::columns::{column, text};
use crate::fields::fields::{choice, date, id, in_row};
use crate::fields::places::is_before;
use crate::fields::table_rows::table_rows;
use crate::fields::text_places::{place_of_text, text_places, texts};
use gtfs_rows::Rows;
use lc_model::{Id, ServiceDate};
use std::alloc::Global;
use std::collections::BTreeMap;

/// The rows of a calendar.txt, in the order of the file (GTFS Schedule Reference, calendar.txt), or the first rule that
/// is broken. Rules 2 to 5 are of the file. In a row 6 is of an absent service, 7 of a service that is there before. 11 is of a
/// weekday that is neither 0 nor 1, 12 of an unreadable date. Of n rows: n log n.
pub fn read_calendar(alloc: Global, bytes: &[u8]) -> Result<WeeklyList, FileFault>
    ensures ok { IfOk result (AreWeekly bytes.now) }
    ensures fault { IfErr result (λ fault. (fault ≡ FileFault.NoMemory) ⊎ IsCalendarFault bytes.now fault) }
{
    let rows = table_rows(
        alloc,
        bytes,
        &[
            "service_id",
            "monday",
            "tuesday",
            "wednesday",
            "thursday",
            "friday",
            "saturday",
            "sunday",
            "start_date",
            "end_date",
        ],
    )?;
    let list = weekly_rows(alloc, &rows)?;
    Ok(WeeklyList::from_list(list))
}

// What these rows say, each by itself, or the first rule that one breaks.
fn weekly_rows(alloc: Global, rows: &Rows) -> Result<Vec<Weekly>, FileFault>
    ensures unbroken { IfOk result (λ _. IsUnbroken (calendar_rule rows.now) (length rows.now.rows)) }
    ensures listed { IfOk result (λ list. map Some list.items ≡ map (weekly_said rows.now) rows.now.rows) }
    ensures fault { IfErr result (λ fault. (fault ≡ FileFault.NoMemory) ⊎ IsRowFault (calendar_rule rows.now) (length rows.now.rows) fault) }
{
    let columns = calendar_columns(rows);
    let services = texts(alloc, rows, columns.service)?;
    let places = text_places(alloc, services.as_slice())?;
    weekly_rows_by(alloc, rows, columns, &places)
}

// What these rows say, by the first places of services, or the first rule that one breaks.
fn weekly_rows_by<'a>(
    alloc: Global,
    rows: &'a Rows,
    columns: CalendarColumns,
    places: &BTreeMap<&'a [u8], usize>,
) -> Result<Vec<Weekly>, FileFault>
    requires columns { AreCalendarColumns rows.now columns }
    requires places { HavePlaces (services_of rows.now) places.now }
    ensures unbroken { IfOk result (λ _. IsUnbroken (calendar_rule rows.now) (length rows.now.rows)) }
    ensures listed { IfOk result (λ list. map Some list.items ≡ map (weekly_said rows.now) rows.now.rows) }
    ensures fault { IfErr result (λ fault. (fault ≡ FileFault.NoMemory) ⊎ IsRowFault (calendar_rule rows.now) (length rows.now.rows) fault) }
{
    let mut list = Vec::new(alloc);
    'rows: for place in 0..rows.len() {
        let weekly = weekly_at(alloc, rows, columns, places, place)?;
        list.push(weekly)?;
    }
    Ok(list)
}

// What the row at this place says, or the first rule that it breaks.
fn weekly_at<'a>(
    alloc: Global,
    rows: &'a Rows,
    columns: CalendarColumns,
    places: &BTreeMap<&'a [u8], usize>,
    place: usize,
) -> Result<Weekly, FileFault>
    requires there { place < length rows.now.rows }
    requires columns { AreCalendarColumns rows.now columns }
    requires places { HavePlaces (services_of rows.now) places.now }
    ensures { ReadsRow (calendar_rule rows.now place) (weekly_said rows.now (row_at rows.now place)) place result }
{
    let name = text(rows, place, columns.service);
    let again = is_before(place_of_text(places, name), place);
    let service = id(alloc, name)?;
    let days = weekdays(rows, columns, place);
    let from = date(text(rows, place, columns.from));
    let to = date(text(rows, place, columns.to));
    in_row(rows, place, weekly(service, again, days, from, to))
}

/// The places of the columns of calendar.txt.
#[derive(Clone, Copy)]
pub(crate) struct CalendarColumns {
    pub(crate) service: Option<usize>,
    pub(crate) monday: Option<usize>,
    pub(crate) tuesday: Option<usize>,
    pub(crate) wednesday: Option<usize>,
    pub(crate) thursday: Option<usize>,
    pub(crate) friday: Option<usize>,
    pub(crate) saturday: Option<usize>,
    pub(crate) sunday: Option<usize>,
    pub(crate) from: Option<usize>,
    pub(crate) to: Option<usize>,
}

fn calendar_columns(rows: &Rows) -> CalendarColumns
    ensures { AreCalendarColumns rows.now result }
{
    CalendarColumns {
        service: column(rows, "service_id"),
        monday: column(rows, "monday"),
        tuesday: column(rows, "tuesday"),
        wednesday: column(rows, "wednesday"),
        thursday: column(rows, "thursday"),
        friday: column(rows, "friday"),
        saturday: column(rows, "saturday"),
        sunday: column(rows, "sunday"),
        from: column(rows, "start_date"),
        to: column(rows, "end_date"),
    }
}

fn weekday(text: &[u8]) -> Option<bool>
    ensures { result ≡ weekday_said text.now }
{
    choice(text, b"1", b"0")
}

// On which weekdays the service of the row at this place runs.
#[tactic(auto, unfolding(crate::specs::Calendars::Calendar::weekdays_said))]
fn weekdays(rows: &Rows, columns: CalendarColumns, place: usize) -> Option<[bool; 7]>
    requires there { place < length rows.now.rows }
    requires columns { AreCalendarColumns rows.now columns }
    ensures { result ≡ weekdays_said rows.now (row_at rows.now place) }
{
    let monday = weekday(text(rows, place, columns.monday))?;
    let tuesday = weekday(text(rows, place, columns.tuesday))?;
    let wednesday = weekday(text(rows, place, columns.wednesday))?;
    let thursday = weekday(text(rows, place, columns.thursday))?;
    let friday = weekday(text(rows, place, columns.friday))?;
    let saturday = weekday(text(rows, place, columns.saturday))?;
    let sunday = weekday(text(rows, place, columns.sunday))?;
    Some([
        monday, tuesday, wednesday, thursday, friday, saturday, sunday,
    ])
}

// The row that these say, or the first rule that they break.
fn weekly(
    service: Option<Id>,
    again: bool,
    days: Option<[bool; 7]>,
    from: Option<ServiceDate>,
    to: Option<ServiceDate>,
) -> Result<Weekly, u8>
    ensures { ReadsItem (first_of (weekly_rules service again days from to)) (weekly_of service days from to) result }
{
    let Some(service) = service else {
        return Err(6);
    };
    if again {
        return Err(7);
    }
    let Some(days) = days else {
        return Err(11);
    };
    let Some(from) = from else {
        return Err(12);
    };
    let Some(to) = to else {
        return Err(12);
    };
    Ok(Weekly {
        service,
        days,
        from,
        to,
    })
}
