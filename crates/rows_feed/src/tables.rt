//! Worked cases of the files of a feed, each read alone.
mod calendar_cases;
mod recorded;
mod row_cases;
mod span_cases;
mod stop_time_cases;
mod transfer_cases;
mod trip_cases;

use rows_common::Draft;
use std::alloc::Global;

/// A line for each case.
pub(crate) fn put_tables(alloc: Global, draft: &mut Draft) {
    row_cases::put_tables(alloc, draft);
    row_cases::put_texts(alloc, draft);
    row_cases::put_faults(alloc, draft);
    row_cases::put_long(alloc, draft);
    trip_cases::put_stops(alloc, draft);
    trip_cases::put_many_stops(alloc, draft);
    trip_cases::put_trips(alloc, draft);
    stop_time_cases::put_files(alloc, draft);
    calendar_cases::put_files(alloc, draft);
    calendar_cases::put_weeks(alloc, draft);
    calendar_cases::put_dates(alloc, draft);
    span_cases::put_spans(alloc, draft);
    transfer_cases::put_transfers(alloc, draft);
}
