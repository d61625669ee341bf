//! Convoys of clients that ask one question, and how those end.
mod finished;
mod linked;
mod turns;

use crate::making::ask;
use crate::said::{put_arrival, put_no_journey};
use convoy::Convoy;
use page_client::Outcome;
use rows_common::{Draft, Unmade};
use std::alloc::Global;

/// 1970-01-11T00:00:00Z, at which the questions leave.
const LEAVE: u64 = 864_000;

/// The text of the base of the pages.
const ADDRESS: &[u8] = b"http://a/";

/// A line for each convoy.
pub(crate) fn put_convoys(alloc: Global, draft: &mut Draft) {
    turns::put_turns(alloc, draft);
    finished::put_finished(alloc, draft);
}

/// This many clients more.
fn ask_each(alloc: Global, draft: &mut Draft, convoy: &mut Convoy, clients: usize, horizon: u32) {
    for _ in 0..clients {
        match ask(alloc, convoy, "E", "F", LEAVE, horizon) {
            Ok(_) => {}
            Err(Unmade) => draft.lose(),
        }
    }
}

/// How a client ended; a journey by how long it takes.
fn put_outcome(draft: &mut Draft, outcome: Option<&Outcome>) {
    match outcome {
        Some(Outcome::Found(journey)) => put_arrival(draft, journey, LEAVE),
        _ => put_no_journey(draft, outcome),
    }
}
