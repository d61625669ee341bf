ghost use Rattle.std.specs.Prelude.{◌≡◌, ◌<◌, IfSome, length};
ghost use Rattle.std.specs.Str.{IsUtf8};
ghost use Rattle.gtfs_tables.specs.Fields.Columns.{IsColumn, row_at, text_in};

use gtfs_rows::Rows;

/// The place of the column of this name, where there is one. Linear in the columns.
pub fn column(rows: &Rows, name: &str) -> Option<usize>
    ensures { IsColumn rows.now name.now result }
{
    rows.column(name)
}

/// The field of the row at this place in this column, empty where there is no such column.
pub fn text<'a>(rows: &'a Rows, place: usize, column: Option<usize>) -> &'a [u8]
    requires row_there { place < length rows.now.rows }
    requires column_there { IfSome column (λ c. c < length rows.now.names) }
    ensures value { result.now ≡ text_in (row_at rows.now place) column }
    ensures text { IsUtf8 result.now }
{
    match column {
        Some(column) => rows.at(place, column),
        None => &[],
    }
}
