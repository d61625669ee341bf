ghost use Rattle.std.specs.Prelude.{◌≡◌, ℕ, List};
ghost use Rattle.std.specs.List.Sorted.{IsSorted};
ghost use Rattle.std.specs.Option.{option_copied, option_or};
ghost use Rattle.std.specs.Ordering.{on};
ghost use Rattle.lc_model.specs.Text.{id_cmp};
ghost use Rattle.change_table.specs.ChangeRule.{are_together, is_same_station, said_seconds};
ghost use Rattle.change_table.specs.Rows.{row_for, seconds_by, target};

use crate::rows::{Row, row_to};
use gtfs_tables::Transfer;
use lc_model::{Id, Stop};

/// The first of the rows to a stop, else the first to its parent.
fn row_for<'a>(rows: &[Row<'a>], to: &Stop) -> Option<&'a Transfer>
    requires { IsSorted (on target id_cmp) rows.now }
    ensures { option_copied result ≡ row_for rows.now to.now }
{
    match row_to(rows, &to.id) {
        Some(row) => Some(row),
        None => match &to.parent {
            Some(parent) => row_to(rows, parent),
            None => None,
        },
    }
}

/// The first of a stop's own rows, else the first of its parent's.
fn deciding_row<'a>(own: &[Row<'a>], of_parent: &[Row<'a>], to: &Stop) -> Option<&'a Transfer>
    requires own { IsSorted (on target id_cmp) own.now }
    requires of_parent { IsSorted (on target id_cmp) of_parent.now }
    ensures { option_copied result ≡ option_or (row_for own.now to.now) (row_for of_parent.now to.now) }
{
    match row_for(own, to) {
        Some(row) => Some(row),
        None => row_for(of_parent, to),
    }
}

fn is_same_station(a: &Option<Id>, b: &Option<Id>) -> bool
    ensures { result ≡ is_same_station a.now b.now }
{
    match a {
        None => false,
        Some(station) => match b {
            None => false,
            Some(other) => station == other,
        },
    }
}

fn are_together(a: &Stop, b: &Stop) -> bool
    ensures { result ≡ are_together a.now b.now }
{
    a.id == b.id || is_same_station(&a.parent, &b.parent)
}

fn said_seconds(row: &Transfer, default: u32) -> Option<u32>
    ensures { result ≡ said_seconds default row.now }
{
    match row.kind {
        3 => None,
        2 => Some(row.seconds.unwrap_or(default)),
        1 => Some(1),
        _ => Some(default),
    }
}

/// The seconds of the change from one stop to another, of which these are the rows and those of its parent. They may be 0.
pub(crate) fn seconds_by(
    own: &[Row],
    of_parent: &[Row],
    default: u32,
    from: &Stop,
    to: &Stop,
) -> Option<u32>
    requires own { IsSorted (on target id_cmp) own.now }
    requires of_parent { IsSorted (on target id_cmp) of_parent.now }
    ensures { result ≡ seconds_by own.now of_parent.now default from.now to.now }
{
    match deciding_row(own, of_parent, to) {
        Some(row) => said_seconds(row, default),
        None if are_together(from, to) => Some(default),
        None => None,
    }
}
