//! Versions of a store after made histories of messages, beside versions that are worked out anew from the runs and the messages.
mod draws;
mod history;
mod messages;
mod plain;
mod timetable;

use history::put_history;
use lc_model::{Runs, Stops};
use rows_common::{Draft, Unmade};
use std::alloc::Global;

/// A history of changes alone, and one of which about a third of the messages are full.
fn put_both(alloc: Global, draft: &mut Draft, runs: &Runs, stops: &Stops) {
    put_history(alloc, draft, runs, stops, "changes alone", 1, u32::MAX);
    put_history(alloc, draft, runs, stops, "full ones between", 2, 3);
}

fn put_over(alloc: Global, draft: &mut Draft, stops: &Stops) {
    match timetable::runs(alloc, stops) {
        Ok(runs) => put_both(alloc, draft, &runs, stops),
        Err(Unmade) => draft.lose(),
    }
}

/// How many versions are alike, and how many connections each has.
pub(crate) fn put_histories(alloc: Global, draft: &mut Draft) {
    match timetable::stops(alloc) {
        Ok(stops) => put_over(alloc, draft, &stops),
        Err(Unmade) => draft.lose(),
    }
}
