ghost use Rattle.std.specs.Prelude.{◌≡◌, [], ◌∷◌, ◌++◌, IfOk, OnOk, Some, filter, map};
ghost use Rattle.std.specs.List.Sorted.{IsSorted};
ghost use Rattle.std.specs.Option.{option_copied};
ghost use Rattle.std.specs.Ordering.{on};
ghost use Rattle.lc_model.specs.Change.{is_same_id};
ghost use Rattle.lc_model.specs.Text.{id_cmp};
ghost use Rattle.change_table.specs.ChangeRule.{has_known_kind};
ghost use Rattle.change_table.specs.Rows.{AreSortedRows, row_cmp, row_to, target, recorded};

use gtfs_tables::Transfer;
use lc_model::{Id, Keyed, NoMemory};
use std::alloc::Global;
use std::cmp::Ordering;

/// A row of transfers.txt, looked up by the stop or station that one leaves.
#[derive(Clone, Copy)]
pub(crate) struct Row<'a> {
    pub(crate) transfer: &'a Transfer,
}

impl Keyed for Row<'_> {
    ghost key = { λ row. row.transfer.now.from };

    fn key(&self) -> &Id {
        &self.transfer.from
    }
}

/// Adds a row, if it is of a kind that is known.
fn push_known<'a>(rows: &mut Vec<Row<'a>>, transfer: &'a Transfer) -> Result<(), NoMemory>
    ensures { OnOk result (recorded rows.new.items ≡ recorded rows.old.items ++ filter has_known_kind (transfer.now ∷ [])) }
{
    if transfer.kind <= 3 {
        rows.push(Row { transfer })?;
    }
    Ok(())
}

fn known_rows<'a>(alloc: Global, transfers: &'a [Transfer]) -> Result<Vec<Row<'a>>, NoMemory>
    ensures { IfOk result (λ rows. recorded rows.items ≡ filter has_known_kind transfers.now) }
{
    let mut rows = Vec::new(alloc);
    'transfers: for transfer in transfers {
        push_known(&mut rows, transfer)?;
    }
    Ok(rows)
}

fn by_ends(a: &Row, b: &Row) -> Ordering
    ensures { result ≡ row_cmp a.now b.now }
{
    let by_start = a.transfer.from.cmp(&b.transfer.from);
    by_start.then(a.transfer.to.cmp(&b.transfer.to))
}

/// The rows that say something of every traveller, sorted by the stops that they name. Rows of the same two stops stay in
/// the order of the file.
pub(crate) fn sorted_rows<'a>(
    alloc: Global,
    transfers: &'a [Transfer],
) -> Result<Vec<Row<'a>>, NoMemory>
    ensures { IfOk result (λ rows. AreSortedRows transfers.now rows.items) }
{
    let mut rows = known_rows(alloc, transfers)?;
    rows.sort_by(|a, b| by_ends(a, b))?;
    Ok(rows)
}

/// The rows that go to one stop or station. Takes the logarithm of the rows.
fn rows_to<'a, 'b>(rows: &'b [Row<'a>], to: &Id) -> &'b [Row<'a>]
    requires { IsSorted (on target id_cmp) rows.now }
    ensures { result.now ≡ filter (λ row. is_same_id (target row) to.now) rows.now }
{
    let first = rows.partition_point(|row| &row.transfer.to < to);
    let end = rows.partition_point(|row| &row.transfer.to <= to);
    &rows[first..end]
}

/// The first row that goes to one stop or station. Takes the logarithm of the rows.
pub(crate) fn row_to<'a>(rows: &[Row<'a>], to: &Id) -> Option<&'a Transfer>
    requires { IsSorted (on target id_cmp) rows.now }
    ensures { option_copied result ≡ row_to rows.now (Some to.now) }
{
    match rows_to(rows, to).first() {
        Some(row) => Some(row.transfer),
        None => None,
    }
}
