ghost use Rattle.std.specs.Prelude.{◌≡◌, ◌≤◌, IfOk, IsTrue, ◌↔◌};
ghost use Rattle.std.specs.Option.{IsSomeAnd};
ghost use Rattle.lc_model.specs.Call.{InSequence};
ghost use Rattle.live_calls.specs.AddedRun.{IsAdded, IsKeyOf, on_date};

use crate::added_calls::added_calls;
use lc_model::{Calls, Id, NoMemory, Run, RunKey, ServiceDate, Stops, TripNews};
use std::alloc::Global;

/// 100 hours in seconds, before which a run starts.
const STARTS_END: u32 = 360_000;

/// Whether a start is past the starts that a run may have.
fn is_past(start: Option<u32>) -> bool
    ensures { IsTrue result ↔ IsSomeAnd start (λ seconds. 360_000 ≤ seconds) }
{
    match start {
        Some(seconds) => STARTS_END <= seconds,
        None => false,
    }
}

/// The key of the run that the news of an added trip make on a date.
pub fn added_key(
    alloc: Global,
    news: &TripNews,
    date: ServiceDate,
) -> Result<Option<RunKey>, NoMemory>
    ensures { IfOk result (IsKeyOf (on_date date news.now)) }
{
    if is_past(news.start) {
        return Ok(None);
    }
    let Some(trip) = Id::new(alloc, news.trip.as_slice())? else {
        return Ok(None);
    };
    let start = news.start;
    Ok(Some(RunKey { trip, date, start }))
}

/// The run that the news of an added trip make on a date, whatever date they say; else as `added_run`.
pub fn added_run_on(
    alloc: Global,
    news: &TripNews,
    date: ServiceDate,
    stops: &Stops,
) -> Result<Option<Run>, NoMemory>
    ensures { IfOk result (IsAdded stops.now (on_date date news.now)) }
{
    let Some(key) = added_key(alloc, news, date)? else {
        return Ok(None);
    };
    let calls = added_calls(alloc, stops.as_slice(), news.stops.as_slice())?;
    if calls.len() < 2 {
        return Ok(None);
    }
    let calls = Calls::from_list(calls);
    Ok(Some(Run { key, calls }))
}

/// The run that the news of an added trip make: it has their trip, date and start, and the calls that they give. None exactly
/// where the trip is no id, no date is said, the start is past 100 hours, or they give fewer than two calls. Each of the news
/// of stops takes the logarithm of the stops. Out of memory also where there are 2^32 news of stops.
pub fn added_run(alloc: Global, news: &TripNews, stops: &Stops) -> Result<Option<Run>, NoMemory>
    ensures { IfOk result (IsAdded stops.now news.now) }
{
    match news.date {
        Some(date) => added_run_on(alloc, news, date, stops),
        None => Ok(None),
    }
}
