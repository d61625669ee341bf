//! Clients that ask from A to D, and how they end.
use crate::making::{MIDNIGHT, ask};
use crate::said::{put_arrival, put_named, put_no_journey};
use convoy::Convoy;
use lc_model::Moment;
use lc_world::Link;
use page_client::Outcome;
use rows_common::{Draft, Unmade};
use std::alloc::Global;

/// A client that asks from A to D, leaving at 08:00:00, is turned until it ends.
pub(super) fn put_client<L: Link>(
    alloc: Global,
    draft: &mut Draft,
    convoy: &mut Convoy,
    link: &mut L,
) {
    match ask(alloc, convoy, "A", "D", MIDNIGHT + 28_800, 86_400) {
        Ok(k) => {
            draft.need(convoy.finish(alloc, link));
            put_end(draft, convoy, k);
        }
        Err(Unmade) => draft.lose(),
    }
}

/// How client k ended, and after how many exchanges.
fn put_end(draft: &mut Draft, convoy: &Convoy, k: usize) {
    if k < 1 || convoy.clients() < k {
        return draft.lose();
    }
    put_named(draft, "client ", &k);
    put_version(draft, convoy.version(k));
    put_outcome(draft, convoy.outcome(k));
    put_named(draft, " exchanges ", &convoy.exchanges(k));
    draft.put("\n");
}

fn put_version(draft: &mut Draft, version: Option<Moment>) {
    draft.put(" version ");
    match version {
        Some(version) => draft.put_shown(&version.seconds()),
        None => draft.put("-"),
    }
}

/// A journey by the second of its day at which it arrives.
fn put_outcome(draft: &mut Draft, outcome: Option<&Outcome>) {
    draft.put(" ");
    match outcome {
        Some(Outcome::Found(journey)) => {
            draft.put("arrives ");
            put_arrival(draft, journey, MIDNIGHT);
        }
        _ => put_no_journey(draft, outcome),
    }
}
