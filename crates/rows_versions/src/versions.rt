//! What comes out of worked live calls, added trips, versions and an index of them.
mod live;
mod messages;
mod news;
mod spans;
mod stores;
mod trips;

use rows_common::{Draft, Unmade};
use std::alloc::Global;

/// A line for each case.
pub(crate) fn put_versions(alloc: Global, draft: &mut Draft) {
    match trips::stops(alloc) {
        Ok(stops) => live::put_live_calls(alloc, draft, &stops),
        Err(Unmade) => draft.lose(),
    }
    stores::put_histories(alloc, draft);
    stores::put_versions(alloc, draft);
    match trips::stops(alloc) {
        Ok(stops) => spans::put_spans(alloc, draft, &stops),
        Err(Unmade) => draft.lose(),
    }
}
