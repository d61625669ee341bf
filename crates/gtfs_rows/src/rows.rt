ghost use Rattle.std.specs.Prelude.{◌≡◌, ◌<◌, ◌≤◌, ◌↔◌, [], IfSome, IsTrue, length, option_map};
ghost use Rattle.std.specs.Str.{IsUtf8};
ghost use Rattle.gtfs_rows.specs.Sheet.{column_of, field_at, field_of};
ghost use Rattle.gtfs_rows.specs.Store.{IsGrid, sheet_of};

use crate::records::Records;
use std::marker::Model;

/// The rows of a table, with the names of its columns. A contract sees a sheet: the names and the rows, without the
/// spaces at both ends of each name and field. Each row has as many fields as there are columns.
#[derive(Drop)]
pub struct Rows {
    records: Records,
}

impl Model for Rows {
    ghost use Rattle.gtfs_rows.specs.Sheet.{Sheet};
    ghost use Rattle.gtfs_rows.specs.Store.{IsGrid, sheet_of};

    ghost Value = { Sheet };

    ghost view = { λ r. sheet_of r.records };

    ghost invariant = { λ r. IsGrid r.records };
}

impl Rows {
    pub(crate) fn from_records(records: Records) -> Rows
        requires { IsGrid records }
        ensures { result ≡ sheet_of records }
    {
        Rows { records }
    }

    /// How many rows there are. Takes no memory.
    pub fn len(&self) -> usize
        ensures { result ≡ length self.now.rows }
    {
        self.records.len() - 1
    }

    /// Whether there is no row. Takes no memory.
    pub fn is_empty(&self) -> bool
        ensures { IsTrue result ↔ (self.now.rows ≡ []) }
    {
        self.len() == 0
    }

    /// The place, from 0, of the first column with this name. Linear in the columns; takes no memory.
    pub fn column(&self, name: &str) -> Option<usize>
        ensures place { result ≡ column_of self.now name.now }
        ensures within { IfSome result (λ column. column < length self.now.names) }
    {
        self.records.column(name)
    }

    /// The field at a place of the rows and a place of the columns, both from 0, without the spaces at both ends.
    /// Takes no memory.
    pub fn at(&self, place: usize, column: usize) -> &[u8]
        requires row_there { place < length self.now.rows }
        requires column_there { column < length self.now.names }
        ensures value { result.now ≡ field_at self.now place column }
        ensures text { IsUtf8 result.now }
    {
        // There are fewer records than `usize` counts.
        let _count = self.records.len();
        self.records.field(place + 1, column)
    }

    /// The field of a row, counted from 1, in the first column with this name, without the spaces at both ends. None
    /// where there is no such column. Linear in the columns; takes no memory.
    pub fn field(&self, row: usize, name: &str) -> Option<&[u8]>
        requires from { 1 ≤ row }
        requires to { row ≤ length self.now.rows }
        ensures value { option_map (λ field. field.now) result ≡ field_of self.now row name.now }
        ensures text { IfSome result (λ field. IsUtf8 field.now) }
    {
        let column = self.column(name)?;
        Some(self.at(row - 1, column))
    }
}
