//! The dates of services, from calendars.
use gtfs_tables::{DateRow, Weekly, read_calendar, read_calendar_dates};
use lc_model::PlainData;
use lc_time::{date_text, read_date};
use rows_common::Draft;
use service_days::{ServiceDay, days};
use std::alloc::Global;

/// The services w (Wednesdays of April and May) and v (each day of the first three of May).
const WEEKLY: &str =
    "service_id,monday,tuesday,wednesday,thursday,friday,saturday,sunday,start_date,end_date\n\
    w,0,0,1,0,0,0,0,20240401,20240531\n\
    v,1,1,1,1,1,1,1,20240501,20240503\n";

/// Dates on which a service is added, 1, or removed, 2.
const DATES: [&str; 7] = [
    "service_id,date,exception_type\nw,20240508,2\n",
    "service_id,date,exception_type\nx,20240508,2\n",
    "service_id,date,exception_type\nw,20240508,1\n",
    "service_id,date,exception_type\nu,20240514,1\n",
    "service_id,date,exception_type\nx,20240515,1\n",
    "service_id,date,exception_type\nv,20240430,1\n",
    "service_id,date,exception_type\nv,20240502,2\n",
];

/// A line for each of `DATES`: on which of 14 days from 2024-05-01 which services run.
pub(super) fn put_listed(alloc: Global, draft: &mut Draft) {
    match read_calendar(alloc, WEEKLY.as_bytes()) {
        Ok(weekly) => {
            for &file in &DATES {
                put_listed_under(alloc, draft, weekly.as_slice(), file);
            }
        }
        Err(_) => draft.lose(),
    }
}

fn put_listed_under(alloc: Global, draft: &mut Draft, weekly: &[Weekly], file: &str) {
    draft.put_escaped(file.as_bytes());
    draft.put(": ");
    match read_calendar_dates(alloc, file.as_bytes()) {
        Ok(dates) => put_found(alloc, draft, weekly, dates.as_slice()),
        Err(_) => draft.lose(),
    }
}

fn put_found(alloc: Global, draft: &mut Draft, weekly: &[Weekly], dates: &[DateRow]) {
    let Some(first) = read_date(b"20240501".as_slice()) else {
        return draft.lose();
    };
    match days(alloc, weekly, dates, first, 14) {
        Ok(found) => {
            draft.need(found.copy(alloc));
            for day in found.as_slice() {
                put_day(draft, day);
            }
            draft.put("\n");
        }
        Err(_) => draft.lose(),
    }
}

/// The service and the day of the month.
fn put_day(draft: &mut Draft, day: &ServiceDay) {
    draft.put(day.service.as_str());
    let date = date_text(day.date);
    draft.put_escaped(&date[6..]);
    draft.put(" ");
}
