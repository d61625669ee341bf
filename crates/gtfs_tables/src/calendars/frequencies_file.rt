ghost use Rattle.std.specs.Prelude.{◌≡◌, ◌<◌, ◌⊎◌, Some, IfErr, IfOk, List, length, map};
ghost use Rattle.gtfs_tables.specs.Fields.Columns.{row_at};
ghost use Rattle.gtfs_tables.specs.Fields.Rules.{IsUnbroken, first_of};
ghost use Rattle.gtfs_tables.specs.Fields.Fields.{ReadsItem, ReadsRow};
ghost use Rattle.gtfs_tables.specs.Fields.Table.{IsRowFault};
ghost use Rattle.gtfs_tables.specs.Fields.TextPlaces.{HavePlaces};
ghost use Rattle.gtfs_tables.specs.declared.fields.trip_rows.TripRow.{TripRow as Trip};
ghost use Rattle.gtfs_tables.specs.Calendars.Frequencies.{AreFrequencies, IsFrequenciesFault, frequencies_rule, frequency_of, frequency_rules, frequency_said, headway_said, ids_of_trips};
ghost use Rattle.gtfs_tables.specs.Calendars.FrequencyColumns.{AreFrequencyColumns};

use crate::calendars::{Frequencies, Frequency};
use crate::fields::columns::{column, text};
use crate::fields::fields::{id, in_row};
use crate::fields::known::places_of_ids;
use crate::fields::table_rows::table_rows;
use crate::fields::text_places::is_unknown;
use crate::fields::times::read_time;
use crate::{FileFault, TripRows};
use gtfs_rows::Rows;
use lc_model::Id;
use lc_time::read_u32;
use std::alloc::Global;
use std::collections::BTreeMap;

/// The rows of a frequencies.txt of these trips, in the order of the file (GTFS Schedule Reference, frequencies.txt), or
/// the first broken rule. Rules 2 to 5 are of the file. In a row 6 is of an absent trip, 9 of a trip that is not among the
/// trips. 11 is of a headway that is no number from 1 on, 12 of an unreadable time. Of n rows and m trips: (n + m) log m.
pub fn read_frequencies(
    alloc: Global,
    bytes: &[u8],
    trips: &TripRows,
) -> Result<Frequencies, FileFault>
    ensures ok { IfOk result (AreFrequencies trips.now bytes.now) }
    ensures fault { IfErr result (λ fault. (fault ≡ FileFault.NoMemory) ⊎ IsFrequenciesFault trips.now bytes.now fault) }
{
    let rows = table_rows(
        alloc,
        bytes,
        &["trip_id", "start_time", "end_time", "headway_secs"],
    )?;
    let list = frequency_rows(alloc, &rows, trips)?;
    Ok(Frequencies::from_list(list))
}

// What these rows say, each by itself, or the first rule that one breaks.
fn frequency_rows(alloc: Global, rows: &Rows, trips: &TripRows) -> Result<Vec<Frequency>, FileFault>
    ensures unbroken { IfOk result (λ _. IsUnbroken (frequencies_rule trips.now rows.now) (length rows.now.rows)) }
    ensures listed { IfOk result (λ list. map Some list.items ≡ map (frequency_said rows.now) rows.now.rows) }
    ensures fault { IfErr result (λ fault. (fault ≡ FileFault.NoMemory) ⊎ IsRowFault (frequencies_rule trips.now rows.now) (length rows.now.rows) fault) }
{
    let columns = frequency_columns(rows);
    let places = places_of_ids(alloc, trips.as_slice())?;
    let mut list = Vec::new(alloc);
    'rows: for place in 0..rows.len() {
        let frequency = frequency_at(alloc, rows, columns, &places, place)?;
        list.push(frequency)?;
    }
    Ok(list)
}

/// The places of the columns of frequencies.txt.
#[derive(Clone, Copy)]
pub(crate) struct FrequencyColumns {
    pub(crate) trip: Option<usize>,
    pub(crate) from: Option<usize>,
    pub(crate) to: Option<usize>,
    pub(crate) headway: Option<usize>,
}

fn frequency_columns(rows: &Rows) -> FrequencyColumns
    ensures { AreFrequencyColumns rows.now result }
{
    FrequencyColumns {
        trip: column(rows, "trip_id"),
        from: column(rows, "start_time"),
        to: column(rows, "end_time"),
        headway: column(rows, "headway_secs"),
    }
}

// What the row at this place says, or the first rule that it breaks. The places are those of the ids of the trips.
fn frequency_at<'a>(
    alloc: Global,
    rows: &'a Rows,
    columns: FrequencyColumns,
    places: &BTreeMap<&'a [u8], usize>,
    place: usize,
) -> Result<Frequency, FileFault>
    requires there { place < length rows.now.rows }
    requires columns { AreFrequencyColumns rows.now columns }
    ensures { (trips : List Trip) → HavePlaces (ids_of_trips trips) places.now → ReadsRow (frequencies_rule trips rows.now place) (frequency_said rows.now (row_at rows.now place)) place result }
{
    let name = text(rows, place, columns.trip);
    let unknown = is_unknown(places, name);
    let trip = id(alloc, name)?;
    let headway = headway(text(rows, place, columns.headway));
    let from = read_time(text(rows, place, columns.from));
    let to = read_time(text(rows, place, columns.to));
    in_row(rows, place, frequency(trip, unknown, headway, from, to))
}

// The seconds from one start to the next.
fn headway(text: &[u8]) -> Option<u32>
    ensures { result ≡ headway_said text.now }
{
    let seconds = read_u32(text)?;
    if seconds == 0 {
        return None;
    }
    Some(seconds)
}

// The row that these say, or the first rule that they break.
fn frequency(
    trip: Option<Id>,
    unknown: bool,
    headway: Option<u32>,
    from: Option<u32>,
    to: Option<u32>,
) -> Result<Frequency, u8>
    ensures { ReadsItem (first_of (frequency_rules trip unknown headway from to)) (frequency_of trip headway from to) result }
{
    let Some(trip) = trip else {
        return Err(6);
    };
    if unknown {
        return Err(9);
    }
    let Some(headway) = headway else {
        return Err(11);
    };
    let Some(from) = from else {
        return Err(12);
    };
    let Some(to) = to else {
        return Err(12);
    };
    Ok(Frequency {
        trip,
        from,
        to,
        headway,
    })
}
