ghost use Rattle.std.specs.Prelude.{◌≡◌, Some};
ghost use Rattle.std.specs.List.Sorted.{IsSorted};
ghost use Rattle.change_table.specs.Rows.{row_cmp, rows_from};

use crate::rows::Row;
use lc_model::{Id, Stop, items_of};

/// A stop that one leaves, with the rows from it and the rows from its parent.
#[derive(Clone, Copy)]
pub(crate) struct Origin<'a, 'b> {
    pub(crate) stop: &'b Stop,
    pub(crate) own: &'b [Row<'a>],
    pub(crate) of_parent: &'b [Row<'a>],
}

fn rows_from<'a, 'b>(rows: &'b [Row<'a>], from: &Option<Id>) -> &'b [Row<'a>]
    requires { IsSorted row_cmp rows.now }
    ensures { result.now ≡ rows_from rows.now from.now }
{
    match from {
        Some(from) => items_of(rows, from),
        None => &rows[..0],
    }
}

/// A stop with its rows. Takes the logarithm of the rows.
pub(crate) fn origin_at<'a, 'b>(rows: &'b [Row<'a>], stop: &'b Stop) -> Origin<'a, 'b>
    requires { IsSorted row_cmp rows.now }
    ensures stop { result.stop.now ≡ stop.now }
    ensures own { result.own.now ≡ rows_from rows.now (Some stop.now.id) }
    ensures of_parent { result.of_parent.now ≡ rows_from rows.now stop.now.parent }
{
    Origin {
        stop,
        own: items_of(rows, &stop.id),
        of_parent: rows_from(rows, &stop.parent),
    }
}
