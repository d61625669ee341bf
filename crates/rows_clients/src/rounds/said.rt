//! How a client ended, and the requests that it made.
ghost use Rattle.page_client.specs.declared.outcome.Outcome.TheVariants as outcomes;
ghost use Rattle.rounds_client.specs.End.{ArrivesAtAMoment};

use crate::said::{first_line, put_named, put_no_journey};
use journey_text::journey_text;
use lc_model::{Journey, Moment};
use lc_time::iso_text;
use lc_world::Entry;
use page_client::Outcome;
use rounds_client::FewestEnd;
use rows_common::Draft;
use std::alloc::Global;

/// The version, the outcome and the number of exchanges, up to the end of the line.
pub(super) fn put_end(alloc: Global, draft: &mut Draft, end: &FewestEnd)
    requires { ArrivesAtAMoment end.now.outcome }
{
    put_version(draft, end.version);
    match &end.outcome {
        Outcome::Found(journey) => put_journey(alloc, draft, journey),
        outcome => put_no_journey(draft, Some(outcome)),
    }
    put_named(draft, " exchanges ", &end.exchanges);
    draft.put("\n");
}

fn put_version(draft: &mut Draft, version: Option<Moment>) {
    match version {
        Some(version) => draft.put_escaped(&iso_text(version)),
        None => draft.put("no version"),
    }
    draft.put(" ");
}

/// The text of the answer, in which the end of each line is written out.
fn put_journey(alloc: Global, draft: &mut Draft, journey: &Journey)
    requires { ArrivesAtAMoment (outcomes.Found journey.now) }
{
    match journey_text(alloc, journey) {
        Ok(text) => draft.put_quoted(text.as_slice()),
        Err(_) => draft.lose(),
    }
}

/// The first line of each request, a line each.
pub(super) fn put_requests(draft: &mut Draft, entries: &[Entry]) {
    for entry in entries {
        draft.put_all(&["  ", first_line(entry.request.as_slice()), "\n"]);
    }
}
