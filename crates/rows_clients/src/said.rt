//! What is said of more than one kind of case.
use lc_model::Journey;
use page_client::Outcome;
use rows_common::Draft;
use std::fmt::Display;

/// A value after its name.
pub(crate) fn put_named<T: Display>(draft: &mut Draft, name: &str, shown: &T) {
    draft.put(name);
    draft.put_shown(shown);
}

/// How a client ended that has no journey, or that it has not ended.
pub(crate) fn put_no_journey(draft: &mut Draft, outcome: Option<&Outcome>) {
    match outcome {
        None => draft.put("open"),
        Some(Outcome::Found(_)) => draft.lose(),
        Some(Outcome::NoJourney) => draft.put("no journey"),
        Some(Outcome::Refused(fault)) => draft.put_shown(fault),
        Some(Outcome::LinkFault { before, after }) => {
            put_named(draft, "link fault ", before);
            put_named(draft, " ", after);
        }
        Some(Outcome::PeerWrong { fault, .. }) => draft.put_shown(fault),
    }
}

/// The seconds from this moment on until a journey arrives.
pub(crate) fn put_arrival(draft: &mut Draft, journey: &Journey, since: u64) {
    match journey.rides.as_slice().last() {
        Some(last) => draft.put_shown(&last.arr.seconds().saturating_sub(since)),
        None => draft.lose(),
    }
}

/// The first line of a request or a reply, which are ASCII here.
pub(crate) fn first_line(message: &[u8]) -> &str {
    match std::str::from_utf8(message) {
        Ok(text) => text.split_once('\r').unwrap_or((text, "")).0,
        Err(_) => "",
    }
}
