//! Worked cases of service days, of changes between stops and of runs.
mod change_cases;
mod day_cases;
mod run_cases;
mod zone_cases;

use rows_common::Draft;
use std::alloc::Global;

/// A line for each case.
pub(crate) fn put_runs(alloc: Global, draft: &mut Draft) {
    zone_cases::put_times(alloc, draft);
    zone_cases::put_civil_dates(alloc, draft);
    zone_cases::put_wrong_words(alloc, draft);
    zone_cases::put_files(draft);
    day_cases::put_listed(alloc, draft);
    change_cases::put_by_rows(alloc, draft);
    change_cases::put_single_stops(alloc, draft);
    change_cases::put_large_station(alloc, draft);
    change_cases::put_faults(draft);
    run_cases::put_feeds(alloc, draft);
    run_cases::put_dates(draft);
}
