//! What calendar.txt and calendar_dates.txt say, or the first rule that each breaks.
use super::recorded::put_file;
use gtfs_tables::{DateRow, FileFault, Weekly, WeeklyList, read_calendar, read_calendar_dates};
use lc_model::ServiceDate;
use rows_common::Draft;
use std::alloc::Global;

/// Whole files.
const FILES: [&[u8]; 3] = [
    b"service_id\n\xFF\n",
    b"",
    b"service_id,monday,tuesday,wednesday,thursday,friday,saturday,start_date,end_date\n",
];

const HEADER: &str =
    "service_id,monday,tuesday,wednesday,thursday,friday,saturday,sunday,start_date,end_date\n";

/// The rows below the header.
const ROWS: [&str; 9] = [
    "w,1,1,1,1,1,0,0,20240101,20241231\nw,1\n",
    "w,1,1,1,1,1,0,0,20240101,20241231\n ,2,1,1,1,1,0,0,20240101,x\n",
    // Of two rows of one service the later is named; in a row the rules are tested in order of number.
    "w,1,1,1,1,1,0,0,20240101,20241231\nv,1,1,1,1,1,0,0,20240101,20241231\nw,2,1,1,1,1,0,0,x,y\n",
    "w,1,1,2,1,1,0,0,x,20241231\n",
    "w,1,1,1,1,1,0,,20240101,20241231\n",
    "w,01,1,1,1,1,0,0,20240101,20241231\n",
    "w,1,1,1,1,1,0,0,20240230,20241231\n",
    "w,1,1,1,1,1,0,0,20240101,2024-12-31\n",
    "",
];

/// A line for each of `FILES` and of `ROWS`.
pub(super) fn put_files(alloc: Global, draft: &mut Draft) {
    for &bytes in &FILES {
        put_file(draft, "calendar.txt ", bytes, &read_calendar(alloc, bytes));
    }
    for &rows in &ROWS {
        let read = read_rows(alloc, rows);
        put_file(draft, "calendar.txt, rows ", rows.as_bytes(), &read);
    }
}

fn read_rows(alloc: Global, rows: &str) -> Result<WeeklyList, FileFault> {
    let file = format!(in alloc; "{HEADER}{rows}")?;
    read_calendar(alloc, file.as_bytes())
}

/// The columns are in another order.
const WEEKS: &str =
    "end_date,sunday,saturday,friday,thursday,wednesday,tuesday,monday,start_date,service_id\n\
    20240531,0,0,0,0,1,0,0,20240401,w\n20241231,1,0,0,0,0,0,1,20240101,v\n";

/// A line for each row of `WEEKS`: the service, the days from Monday to Sunday, and the first and the last date.
pub(super) fn put_weeks(alloc: Global, draft: &mut Draft) {
    match read_calendar(alloc, WEEKS.as_bytes()) {
        Ok(weekly) => {
            for row in weekly.as_slice() {
                put_week(draft, row);
            }
        }
        Err(_) => draft.lose(),
    }
}

fn put_week(draft: &mut Draft, row: &Weekly) {
    draft.put_all(&["weekly ", row.service.as_str(), ": "]);
    for day in &row.days {
        draft.put_shown(day);
        draft.put(" ");
    }
    put_date(draft, row.from);
    draft.put(" to ");
    put_date(draft, row.to);
    draft.put("\n");
}

fn put_date(draft: &mut Draft, date: ServiceDate) {
    draft.put_shown(&date.year);
    draft.put(" ");
    draft.put_shown(&date.month);
    draft.put(" ");
    draft.put_shown(&date.day);
}

const DATE_FILES: [&[u8]; 10] = [
    b"service_id,date,exception_type\nw,20240508,1\xFF\n",
    b"\n\n",
    b"service_id,date\nw,20240508\n",
    b"service_id,date,exception_type\nw,20240508\n",
    b"service_id,date,exception_type\n,20240508,3\n",
    // Of two rows of one service and date the later is named, also where its exception_type is unreadable.
    b"service_id,date,exception_type\nw,20240508,1\nv,20240508,1\nw,20240509,2\n w,20240508,3\n",
    b"service_id,date,exception_type\nw,20240508,0\n",
    b"service_id,date,exception_type\nw,20240508,1\nw,2024058,3\n",
    b"service_id,date,exception_type\nw,20230229,1\n",
    b"\xEF\xBB\xBFservice_id,date,exception_type\nw,20240229,1\n",
];

/// A line for each of `DATE_FILES`, and for each date of a file.
pub(super) fn put_dates(alloc: Global, draft: &mut Draft) {
    for &bytes in &DATE_FILES {
        let read = read_calendar_dates(alloc, bytes);
        put_file(draft, "calendar_dates.txt ", bytes, &read);
    }
    let file = b"service_id,date,exception_type\nw,20240508,2\nv,20240508,1\n";
    match read_calendar_dates(alloc, file.as_slice()) {
        Ok(dates) => {
            for row in dates.as_slice() {
                put_date_row(draft, row);
            }
        }
        Err(_) => draft.lose(),
    }
}

fn put_date_row(draft: &mut Draft, row: &DateRow) {
    draft.put_all(&["date ", row.service.as_str(), ", added "]);
    draft.put_shown(&row.added);
    draft.put(": ");
    put_date(draft, row.date);
    draft.put("\n");
}
