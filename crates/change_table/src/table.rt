ghost use Rattle.std.specs.Prelude.{◌≡◌, ℕ, ◌+◌, ◌<◌, ◌≤◌, ◌++◌, All, IfErr, IfOk, List, OnOk, Some, length, option_map, option_to_list, vec_len};
ghost use Rattle.std.specs.List.Sorted.{IsSorted};
ghost use Rattle.std.specs.Ordering.{on};
ghost use Rattle.lc_model.specs.Change.{change_between};
ghost use Rattle.lc_model.specs.Stop.{InStopOrder};
ghost use Rattle.lc_model.specs.Text.{id_cmp};
ghost use Rattle.change_table.specs.ChangeRule.{change_of, given_seconds};
ghost use Rattle.change_table.specs.ChangeTable.{AreChangesOf, HasCause, OneListOfChanges, count_of_changes};
ghost use Rattle.change_table.specs.Pairs.{changes_among, changes_to, timed_change};
ghost use Rattle.change_table.specs.Partners.{AreChildren, child_cmp, stops_at};
ghost use Rattle.change_table.specs.Rows.{AreSortedRows, row_cmp, seconds_by, target};
ghost use Rattle.gtfs_tables.specs.declared.calendars.transfer.Transfer.{Transfer as SaidTransfer};

use crate::children::{Child, children_of};
use crate::fault::{ChangeFault, MOST_CHANGES};
use crate::origin::{Origin, origin_at};
use crate::partners::partners;
use crate::rows::{Row, sorted_rows};
use crate::rule::seconds_by;
use gtfs_tables::{Transfer, Transfers};
use lc_model::{Change, Changes, PlainData, Stop, Stops};
use std::alloc::Global;

/// Adds the change between two stops, if it has seconds. A change of 0 seconds takes one.
fn push_change(
    alloc: Global,
    changes: &mut Vec<Change>,
    from: &Stop,
    to: &Stop,
    seconds: Option<u32>,
) -> Result<(), ChangeFault>
    ensures added { OnOk result (changes.new.items
        ≡ changes.old.items ++ option_to_list (option_map (timed_change from.now.id to.now.id) seconds)) }
    ensures room { vec_len changes.old ≤ MOST_CHANGES → OnOk result (vec_len changes.new ≤ MOST_CHANGES) }
    ensures fault { IfErr result (λ fault. HasCause fault (length (changes.old.items
        ++ option_to_list (option_map (timed_change from.now.id to.now.id) seconds)))) }
{
    if let Some(seconds) = seconds {
        if changes.len() >= MOST_CHANGES {
            let count = MOST_CHANGES as u64 + 1;
            return Err(ChangeFault::TooManyChanges { count });
        }
        let (from, to) = (from.id.copy(alloc)?, to.id.copy(alloc)?);
        let seconds = seconds.max(1);
        changes.push(Change { from, to, seconds })?;
    }
    Ok(())
}

/// Adds the changes from a stop to those at some places.
fn push_changes(
    alloc: Global,
    changes: &mut Vec<Change>,
    stops: &[Stop],
    places: &[usize],
    default: u32,
    origin: &Origin,
) -> Result<(), ChangeFault>
    requires own { IsSorted (on target id_cmp) origin.now.own.now }
    requires of_parent { IsSorted (on target id_cmp) origin.now.of_parent.now }
    requires within { All (λ place. place < length stops.now) places.now }
    ensures added { OnOk result (changes.new.items ≡ changes.old.items
        ++ changes_to (seconds_by origin.now.own.now origin.now.of_parent.now default origin.now.stop.now)
        origin.now.stop.now (stops_at stops.now origin.now.stop.now places.now)) }
    ensures room { vec_len changes.old ≤ MOST_CHANGES → OnOk result (vec_len changes.new ≤ MOST_CHANGES) }
    ensures fault { IfErr result (λ fault. HasCause fault (length (changes.old.items
        ++ changes_to (seconds_by origin.now.own.now origin.now.of_parent.now default origin.now.stop.now)
        origin.now.stop.now (stops_at stops.now origin.now.stop.now places.now)))) }
{
    'places: for &place in places {
        let to = &stops[place];
        let seconds = seconds_by(origin.own, origin.of_parent, default, origin.stop, to);
        push_change(alloc, changes, origin.stop, to, seconds)?;
    }
    Ok(())
}

/// Adds the changes from a stop to all stops.
fn push_stop(
    alloc: Global,
    changes: &mut Vec<Change>,
    stops: &[Stop],
    rows: &[Row],
    children: &[Child],
    default: u32,
    stop: &Stop,
) -> Result<(), ChangeFault>
    requires in_order { InStopOrder stops.now }
    requires rows { IsSorted row_cmp rows.now }
    requires children { AreChildren stops.now children.now }
    requires by_parent { IsSorted child_cmp children.now }
    ensures added { (transfers : List SaidTransfer) → AreSortedRows transfers rows.now → OnOk result (changes.new.items
        ≡ changes.old.items ++ changes_to (given_seconds transfers default stop.now) stop.now stops.now) }
    ensures room { vec_len changes.old ≤ MOST_CHANGES → OnOk result (vec_len changes.new ≤ MOST_CHANGES) }
    ensures fault { (transfers : List SaidTransfer) → AreSortedRows transfers rows.now → IfErr result (λ fault. HasCause fault (length (changes.old.items
        ++ changes_to (given_seconds transfers default stop.now) stop.now stops.now))) }
{
    let origin = origin_at(rows, stop);
    let places = partners(alloc, stops, children, &origin)?;
    push_changes(alloc, changes, stops, places.as_slice(), default, &origin)
}

fn all_changes(
    alloc: Global,
    stops: &[Stop],
    transfers: &[Transfer],
    default: u32,
) -> Result<Vec<Change>, ChangeFault>
    requires { InStopOrder stops.now }
    ensures all { IfOk result (λ changes. changes.items ≡ changes_among (given_seconds transfers.now default) stops.now stops.now) }
    ensures room { IfOk result (λ changes. vec_len changes ≤ MOST_CHANGES) }
    ensures fault { IfErr result (λ fault. HasCause fault (length (changes_among (given_seconds transfers.now default) stops.now stops.now))) }
{
    let rows = sorted_rows(alloc, transfers)?;
    let children = children_of(alloc, stops)?;
    let mut changes = Vec::new(alloc);
    'stops: for stop in stops {
        push_stop(
            alloc,
            &mut changes,
            stops,
            rows.as_slice(),
            children.as_slice(),
            default,
            stop,
        )?;
    }
    Ok(changes)
}

/// The changes between stops, by the rows of transfers.txt (GTFS Schedule Reference, transfers.txt). A change at a stop or
/// within a station takes a default number of seconds. Each takes one second or more.
///
/// It takes the time of a sort of the rows and of the stops. For each stop it takes that of a sort of the stops that its rows, those
/// of its parent and its station name. No more pairs of stops are looked at.
pub fn changes(
    alloc: Global,
    stops: &Stops,
    transfers: &Transfers,
    default: u32,
) -> Result<Changes, ChangeFault>
    ensures are { IfOk result (AreChangesOf stops.now transfers.now default) }
    ensures between { IfOk result (λ changes. (from to : List ℕ) →
        change_between changes from to ≡ change_of stops.now transfers.now default from to) }
    ensures room { OnOk result (count_of_changes stops.now transfers.now default ≤ MOST_CHANGES) }
    ensures fault { IfErr result (λ fault. HasCause fault (count_of_changes stops.now transfers.now default)) }
{
    let list = all_changes(alloc, stops.as_slice(), transfers.as_slice(), default)?;
    Ok(Changes::from_list(list)?)
}

/// Stops and rows have one list of changes.
pub fn one_list_of_changes()
    ensures { OneListOfChanges }
{}
