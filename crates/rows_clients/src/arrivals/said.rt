//! What a question results in, as a piece of a line each.
use crate::making::MIDNIGHT;
use crate::said::{first_line, put_named, put_no_journey};
use back_client::ArriveEnd;
use lc_model::{Journey, Moment, Ride, Walk};
use lc_world::Entry;
use page_client::Outcome;
use rows_common::Draft;

/// How the question ended, and the number of its exchanges.
pub(super) fn put_end(draft: &mut Draft, end: &ArriveEnd) {
    draft.put(": ");
    match &end.outcome {
        Outcome::Found(journey) => put_journey(draft, journey),
        outcome => put_no_journey(draft, Some(outcome)),
    }
    put_named(draft, ", exchanges ", &end.exchanges);
}

fn put_journey(draft: &mut Draft, journey: &Journey) {
    draft.put("journey");
    put_walk(draft, journey.before.as_ref());
    for ride in journey.rides.as_slice() {
        put_ride(draft, ride);
    }
    put_walk(draft, journey.after.as_ref());
}

fn put_walk(draft: &mut Draft, walk: Option<&Walk>) {
    if let Some(walk) = walk {
        draft.put_all(&[" walk ", walk.from.as_str(), " ", walk.to.as_str(), " "]);
        draft.put_shown(&walk.seconds);
    }
}

/// The trip, the stop and the second of boarding, and those of alighting.
fn put_ride(draft: &mut Draft, ride: &Ride) {
    draft.put_all(&[" ", ride.key.trip.as_str(), " ", ride.board.as_str(), " "]);
    put_second(draft, ride.dep);
    draft.put_all(&[" ", ride.alight.as_str(), " "]);
    put_second(draft, ride.arr);
}

/// The second of the day.
fn put_second(draft: &mut Draft, moment: Moment) {
    draft.put_shown(&moment.seconds().saturating_sub(MIDNIGHT));
}

/// What the requests ask for.
pub(super) fn put_requests(draft: &mut Draft, entries: &[Entry]) {
    for entry in entries {
        draft.put(", ");
        put_target(draft, entry.request.as_slice());
    }
}

/// What comes after the method, up to the version of HTTP.
fn put_target(draft: &mut Draft, request: &[u8]) {
    let mut words = first_line(request).split_whitespace();
    let _method = words.next();
    match words.next() {
        Some(target) => draft.put(target),
        None => draft.lose(),
    }
}
