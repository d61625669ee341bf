//! The rows of CSV texts.
use gtfs_rows::{RowFault, Rows, table};
use rows_common::Draft;
use std::alloc::Global;
use tiny_feed::{CALENDAR_DATES, STOP_TIMES, STOPS, TRIPS};

const DATES_COLUMNS: &str = "service_id,date,exception_type";

const STOP_TIMES_COLUMNS: &str = "trip_id,stop_id,stop_sequence,arrival_time,departure_time";

/// A table of a small feed, and the columns that are required of it, parted by commas. The row, counted from 1, and the column of
/// a field.
const TABLES: [(&str, &str, &str, usize, &str); 7] = [
    ("stops", STOPS, "stop_id", 6, "stop_name"),
    ("trips", TRIPS, "trip_id,service_id", 1, "trip_id"),
    ("trips", TRIPS, "route_id", 5, "service_id"),
    ("dates", CALENDAR_DATES, DATES_COLUMNS, 1, "date"),
    ("times", STOP_TIMES, STOP_TIMES_COLUMNS, 1, "arrival_time"),
    ("times", STOP_TIMES, STOP_TIMES_COLUMNS, 2, "departure_time"),
    ("times", STOP_TIMES, STOP_TIMES_COLUMNS, 11, "stop_sequence"),
];

// The columns of this list, which are parted by commas, are required of the text.
fn table_with(alloc: Global, bytes: &[u8], columns: &str) -> Result<Rows, RowFault> {
    let columns: Vec<&str> = columns.split(',').collect(alloc)?;
    table(alloc, bytes, columns.as_slice())
}

/// A line for each row of `TABLES`: how many rows there are, and the field.
pub(super) fn put_tables(alloc: Global, draft: &mut Draft) {
    for &(name, file, columns, row, column) in &TABLES {
        draft.put(name);
        put_field_of(
            draft,
            &table_with(alloc, file.as_bytes(), columns),
            row,
            column,
        );
    }
}

/// Ends a line with the number of the rows and the field of a row, counted from 1, in a column, or with the fault.
fn put_field_of(draft: &mut Draft, read: &Result<Rows, RowFault>, row: usize, column: &str) {
    draft.put(": ");
    match read {
        Ok(rows) => put_field(draft, rows, row, column),
        Err(fault) => draft.put_shown(fault),
    }
    draft.put("\n");
}

fn put_field(draft: &mut Draft, rows: &Rows, row: usize, column: &str) {
    let len = rows.len();
    if row < 1 || row > len {
        return draft.lose();
    }
    draft.put_shown(&len);
    draft.put(" rows, row ");
    draft.put_shown(&row);
    draft.put(", ");
    draft.put_escaped(column.as_bytes());
    put_value(draft, rows.field(row, column));
}

fn put_value(draft: &mut Draft, field: Option<&[u8]>) {
    match field {
        Some(field) => {
            draft.put(" = ");
            draft.put_escaped(field);
        }
        None => draft.put(" is no column"),
    }
}

/// A text, and the row, counted from 1, and the column of a field.
const TEXTS: [(&str, usize, &str); 27] = [
    // LF, CR and CRLF end a record, also the last one, which may do without.
    ("a,b\n1,2\n3,4\n", 2, "a"),
    ("a,b\r1,2\r3,4\r", 2, "b"),
    ("a,b\r\n1,2\r\n3,4", 2, "b"),
    // Empty lines are passed over; a line of spaces is a row.
    ("\n\r\na\n\n1\r\r\n2\n\n", 2, "a"),
    ("a\n  \n", 1, "a"),
    // A quoted field may hold commas, quotes and line ends; a lone pair of quotes is a row.
    ("a,b\n\"1,x\",2\n", 1, "a"),
    ("a,b\n\"1\"\"x\"\"\",2\n", 1, "a"),
    ("a,b\n\"1\r\n2\",3\n", 1, "a"),
    ("a\n\"\"\n", 1, "a"),
    ("a,b\n1,\"x\ny,z\n", 1, "b"),
    ("a,b\n,\n", 1, "b"),
    ("a,b\n1,", 1, "b"),
    // A quote that does not begin a field is part of it; fields of a later row may be quoted alone.
    ("a,b\n1\"x\",2\n", 1, "a"),
    ("a,b\n1, \"2\"\n", 1, "b"),
    ("a,b\n1,2\n3,\"4,5\"\n", 1, "b"),
    ("a,b\n1,2\n3,\"4,5\"\n", 2, "b"),
    // One byte-order mark at the start is dropped, a second one is part of the first name.
    ("\u{FEFF}a,b\n1,2\n", 1, "a"),
    ("\u{FEFF}\u{FEFF}a,b\n1,2\n", 1, "a"),
    ("\u{FEFF}\u{FEFF}a,b\n1,2\n", 1, "\u{FEFF}a"),
    // Spaces at both ends of names and fields are dropped, also in quotes; a tab is no space.
    (" a ,  b\n 1  , 2 3 \n", 1, "b"),
    (" a ,  b\n\" 1  \", 2 3 \n", 1, "a"),
    ("a,b\n\t1 , 2\t\n", 1, "a"),
    ("a,b\n\t1 , 2\t\n", 1, "b"),
    ("a\n\u{A0}1\n", 1, "a"),
    // Of two columns with one name the first counts; letter case matters.
    ("a,b, a\n1,2,3\n", 1, "a"),
    ("A,b\n1,2\n", 1, "a"),
    ("a,b\n1,2\n", 1, ""),
];

/// A line for each row of `TEXTS`: how many rows there are, and the field.
pub(super) fn put_texts(alloc: Global, draft: &mut Draft) {
    for &(file, row, column) in &TEXTS {
        draft.put_escaped(file.as_bytes());
        put_field_of(draft, &table(alloc, file.as_bytes(), &[]), row, column);
    }
}

/// Bytes, and the columns that are required of them.
const FAULTS: [(&[u8], &str); 14] = [
    (b"a\n1\n", "a"),
    (b"a", "a"),
    (b"a\n\xFF\n", "a"),
    (b"\xC3", "a"),
    (b"a\n1,2\n\xED\xA0\x80", "b"),
    (b"", "a"),
    (b"\n\r\n", "a"),
    (b"\xEF\xBB\xBF", "a"),
    (b"a\n1\n", "b,c"),
    (b"b\n1\n", "b,a,c"),
    (b"a\n1,2\n", "b"),
    (b"a\n1,2\n", "a"),
    (b"a,b\n1,2\n3\n4,5,6\n", "a"),
    (b"a,b\n1,2\n\n3,4,\n", "b"),
];

/// A line for each row of `FAULTS`: what the fault says, or that there is none.
pub(super) fn put_faults(alloc: Global, draft: &mut Draft) {
    for &(bytes, columns) in &FAULTS {
        draft.put_escaped(bytes);
        draft.put_all(&[" with ", columns, ": "]);
        match table_with(alloc, bytes, columns) {
            Ok(_) => draft.put("none"),
            Err(fault) => draft.put_owned(fault),
        }
        draft.put("\n");
    }
}

/// Lines of a file that is longer than a buffer.
pub(super) fn put_long(alloc: Global, draft: &mut Draft) {
    let mut file = Draft::new(alloc);
    file.put("trip_id,stop_id\n");
    for row in 1..=3_000u32 {
        put_long_row(&mut file, row);
    }
    match table(alloc, file.as_bytes(), &["stop_id"]) {
        Ok(rows) => put_long_rows(draft, &rows),
        Err(_) => draft.lose(),
    }
}

fn put_long_row(file: &mut Draft, row: u32) {
    file.put("trip ");
    file.put_shown(&row);
    file.put(",\"stop, ");
    file.put_shown(&row);
    file.put("\"\r\n");
}

fn put_long_rows(draft: &mut Draft, rows: &Rows) {
    draft.put("long, is empty: ");
    draft.put_shown(&rows.is_empty());
    for &row in &[1, 1_500, 3_000] {
        draft.put("\nlong: ");
        put_field(draft, rows, row, "stop_id");
    }
    draft.put("\nlong, trip_id at 2999");
    put_value(draft, last_trip(rows));
    draft.put("\n");
}

/// The trip of the row at the place 2,999, from 0.
fn last_trip(rows: &Rows) -> Option<&[u8]> {
    let column = rows.column("trip_id")?;
    if rows.len() <= 2_999 {
        return None;
    }
    Some(rows.at(2_999, column))
}
