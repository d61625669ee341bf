ghost use Rattle.std.specs.Prelude.{◌≡◌, ◌<◌, ◌⊎◌, ◌++◌, ℕ, ◌||◌, ◌&&◌, Some, IfErr, IfOk, List, OnOk, length, not, option_to_list};
ghost use Rattle.std.specs.List.{filter_map};
ghost use Rattle.lc_model.specs.declared.stop.Stop.{Stop as RecordedStop};
ghost use Rattle.gtfs_tables.specs.Fields.Columns.{row_at};
ghost use Rattle.gtfs_tables.specs.Fields.Places.{is_unknown as is_none_of};
ghost use Rattle.gtfs_tables.specs.Fields.Rules.{IsUnbroken, first_of};
ghost use Rattle.gtfs_tables.specs.Fields.Fields.{ReadsItem, ReadsRow};
ghost use Rattle.gtfs_tables.specs.Fields.Table.{IsRowFault};
ghost use Rattle.gtfs_tables.specs.Fields.TextPlaces.{HavePlaces};
ghost use Rattle.gtfs_tables.specs.Calendars.TransferColumns.{AreTransferColumns};
ghost use Rattle.gtfs_tables.specs.Calendars.Transfers.{AreTransfers, IsTransfersFault, ids_of_stops, is_filled, is_kind as is_kind_of_change, is_of_some_trips, kind_said, seconds_said, transfer_of, transfer_rules, transfer_said, transfers_rule};

use crate::FileFault;
use crate::calendars::{Transfer, Transfers};
use crate::fields::columns::{column, text};
use crate::fields::fields::{id, in_row};
use crate::fields::known::places_of_ids;
use crate::fields::table_rows::table_rows;
use crate::fields::text_places::is_unknown;
use gtfs_rows::Rows;
use lc_model::{Id, NoMemory, Stops};
use lc_time::read_u32;
use std::alloc::Global;
use std::collections::BTreeMap;

/// The rows of a transfers.txt of these stops, in the order of the file (GTFS Schedule Reference, transfers.txt), or the
/// first broken rule. Rules 2 to 5 are of the file. In a row 8 is of a stop that is not among the stops, 11 of an
/// unreadable number. A row is passed over where its transfer_type is none of 0 to 3, or a stop is empty. One of some
/// routes or trips alone is passed over too, and rule 8 is not tested for either. Of n rows and m stops: (n + m) log m.
pub fn read_transfers(alloc: Global, bytes: &[u8], stops: &Stops) -> Result<Transfers, FileFault>
    ensures ok { IfOk result (AreTransfers stops.now bytes.now) }
    ensures fault { IfErr result (λ fault. (fault ≡ FileFault.NoMemory) ⊎ IsTransfersFault stops.now bytes.now fault) }
{
    let rows = table_rows(alloc, bytes, &["from_stop_id", "to_stop_id"])?;
    let list = transfer_rows(alloc, &rows, stops)?;
    Ok(Transfers::from_list(list))
}

// What the rows that are not passed over say, each by itself, or the first rule that a row breaks.
fn transfer_rows(alloc: Global, rows: &Rows, stops: &Stops) -> Result<Vec<Transfer>, FileFault>
    ensures unbroken { IfOk result (λ _. IsUnbroken (transfers_rule stops.now rows.now) (length rows.now.rows)) }
    ensures listed { IfOk result (λ list. list.items ≡ filter_map (transfer_said rows.now) rows.now.rows) }
    ensures fault { IfErr result (λ fault. (fault ≡ FileFault.NoMemory) ⊎ IsRowFault (transfers_rule stops.now rows.now) (length rows.now.rows) fault) }
{
    let columns = transfer_columns(rows);
    let places = places_of_ids(alloc, stops.as_slice())?;
    let mut list = Vec::new(alloc);
    'rows: for place in 0..rows.len() {
        let transfer = transfer_at(alloc, rows, columns, &places, place)?;
        push_one(&mut list, transfer)?;
    }
    Ok(list)
}

// Adds an item, where there is one.
fn push_one(list: &mut Vec<Transfer>, transfer: Option<Transfer>) -> Result<(), NoMemory>
    ensures { OnOk result (list.new.items ≡ list.old.items ++ option_to_list transfer) }
{
    match transfer {
        Some(transfer) => {
            list.push(transfer)?;
            Ok(())
        }
        None => Ok(()),
    }
}

/// The places of the columns of transfers.txt.
#[derive(Clone, Copy)]
pub(crate) struct TransferColumns {
    pub(crate) from: Option<usize>,
    pub(crate) to: Option<usize>,
    pub(crate) kind: Option<usize>,
    pub(crate) seconds: Option<usize>,
    pub(crate) from_route: Option<usize>,
    pub(crate) to_route: Option<usize>,
    pub(crate) from_trip: Option<usize>,
    pub(crate) to_trip: Option<usize>,
}

fn transfer_columns(rows: &Rows) -> TransferColumns
    ensures { AreTransferColumns rows.now result }
{
    TransferColumns {
        from: column(rows, "from_stop_id"),
        to: column(rows, "to_stop_id"),
        kind: column(rows, "transfer_type"),
        seconds: column(rows, "min_transfer_time"),
        from_route: column(rows, "from_route_id"),
        to_route: column(rows, "to_route_id"),
        from_trip: column(rows, "from_trip_id"),
        to_trip: column(rows, "to_trip_id"),
    }
}

// What the row at this place says, none where it is passed over, or the first rule that it breaks. The places are those
// of the ids of the stops.
fn transfer_at<'a>(
    alloc: Global,
    rows: &'a Rows,
    columns: TransferColumns,
    places: &BTreeMap<&'a [u8], usize>,
    place: usize,
) -> Result<Option<Transfer>, FileFault>
    requires there { place < length rows.now.rows }
    requires columns { AreTransferColumns rows.now columns }
    ensures { (stops : List RecordedStop) → HavePlaces (ids_of_stops stops) places.now → ReadsRow (transfers_rule stops rows.now place) (Some (transfer_said rows.now (row_at rows.now place))) place result }
{
    let from = text(rows, place, columns.from);
    let to = text(rows, place, columns.to);
    let unknown = one_is_unknown(places, from, to);
    let first = id(alloc, from)?;
    let last = id(alloc, to)?;
    let of_some = of_some_trips(rows, columns, place);
    let kind = kind(text(rows, place, columns.kind));
    let seconds = seconds(text(rows, place, columns.seconds));
    let passed = passed_over(first.is_none(), last.is_none(), of_some, kind);
    in_row(
        rows,
        place,
        transfer(passed, unknown, first, last, kind, seconds),
    )
}

// Whether one of two texts that are not empty is none of those whose places are known.
fn one_is_unknown<'a>(places: &BTreeMap<&'a [u8], usize>, x: &'a [u8], y: &'a [u8]) -> bool
    ensures { (texts : List (List ℕ)) → HavePlaces texts places.now → result ≡ (is_none_of texts x.now || is_none_of texts y.now) }
{
    is_unknown(places, x) || is_unknown(places, y)
}

// Whether the row at this place is of some routes or trips alone.
#[tactic(auto, unfolding(crate::specs::Calendars::Transfers::is_of_some_trips))]
fn of_some_trips(rows: &Rows, columns: TransferColumns, place: usize) -> bool
    requires there { place < length rows.now.rows }
    requires columns { AreTransferColumns rows.now columns }
    ensures { result ≡ is_of_some_trips rows.now (row_at rows.now place) }
{
    let from_route = filled(text(rows, place, columns.from_route));
    let to_route = filled(text(rows, place, columns.to_route));
    let from_trip = filled(text(rows, place, columns.from_trip));
    let to_trip = filled(text(rows, place, columns.to_trip));
    from_route || (to_route || (from_trip || to_trip))
}

fn filled(text: &[u8]) -> bool
    ensures { result ≡ is_filled text.now }
{
    !text.is_empty()
}

// The transfer_type that a field says.
fn kind(text: &[u8]) -> Option<u32>
    ensures { result ≡ kind_said text.now }
{
    if text.is_empty() {
        return Some(0);
    }
    read_u32(text)
}

// The min_transfer_time that a field says.
fn seconds(text: &[u8]) -> Option<Option<u32>>
    ensures { result ≡ seconds_said text.now }
{
    if text.is_empty() {
        return Some(None);
    }
    match read_u32(text) {
        Some(seconds) => Some(Some(seconds)),
        None => None,
    }
}

// Whether a row is passed over, by whether it lacks its stops.
fn passed_over(no_from: bool, no_to: bool, of_some: bool, kind: Option<u32>) -> bool
    ensures { result ≡ (not (is_kind_of_change kind) || (no_from || (no_to || of_some))) }
{
    !is_kind(kind) || (no_from || (no_to || of_some))
}

fn is_kind(kind: Option<u32>) -> bool
    ensures { result ≡ is_kind_of_change kind }
{
    match kind {
        Some(kind) => kind <= 3,
        None => false,
    }
}

// The row that these say, or the first rule that they break.
fn transfer(
    passed: bool,
    unknown: bool,
    from: Option<Id>,
    to: Option<Id>,
    kind: Option<u32>,
    seconds: Option<Option<u32>>,
) -> Result<Option<Transfer>, u8>
    ensures { ReadsItem (first_of (transfer_rules passed unknown kind seconds)) (Some (transfer_of passed from to kind seconds)) result }
{
    if is_stray(passed, unknown) {
        return Err(8);
    }
    let Some(kind) = kind else {
        return Err(11);
    };
    let Some(seconds) = seconds else {
        return Err(11);
    };
    Ok(if_kept(passed, from, to, kind, seconds))
}

// Whether a row that is not passed over has an unknown stop.
fn is_stray(passed: bool, unknown: bool) -> bool
    ensures { result ≡ (not passed && unknown) }
{
    !passed && unknown
}

// The row that these make, where it is not passed over.
fn if_kept(
    passed: bool,
    from: Option<Id>,
    to: Option<Id>,
    kind: u32,
    seconds: Option<u32>,
) -> Option<Transfer>
    ensures { result ≡ transfer_of passed from to (Some kind) (Some seconds) }
{
    if passed {
        return None;
    }
    let Some(from) = from else {
        return None;
    };
    let Some(to) = to else {
        return None;
    };
    Some(Transfer {
        from,
        to,
        kind,
        seconds,
    })
}
