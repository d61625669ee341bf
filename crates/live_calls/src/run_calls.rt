ghost use Rattle.std.specs.Prelude.{◌≡◌, ◌++◌, IfOk, IsTrue, List, None, Some};
ghost use Rattle.std.specs.Option.{option_copied};
ghost use Rattle.lc_model.specs.Call.{GoesForward, InSequence};
ghost use Rattle.lc_model.specs.Versions.Live.{StatedCall, call_at, calls_with, live_calls_of, raised};
ghost use Rattle.lc_model.specs.Versions.Naming.{is_canceled};
ghost use Rattle.live_calls.specs.Walk.{IsKeptAfter, stated_list};

use crate::forward::{Raised, nearest, raise};
use crate::naming::named_news;
use crate::stated::{Times, stated_call};
use lc_model::{Call, Calls, Moment, NoMemory, PlainData, Run, StopNews, TripKind, TripNews};
use std::alloc::Global;

/// A call of the timetable at these moments.
fn call_at(alloc: Global, call: &Call, raised: Raised) -> Result<Call, NoMemory>
    ensures { IfOk result (λ live. live ≡ call_at call.now raised.arr raised.dep) }
{
    Ok(Call {
        stop: call.stop.copy(alloc)?,
        seq: call.seq,
        arr: raised.arr,
        dep: raised.dep,
        board: call.board,
        alight: call.alight,
        arr_delay: raised.arr.seconds() as i64 - call.arr.seconds() as i64,
        dep_delay: raised.dep.seconds() as i64 - call.dep.seconds() as i64,
    })
}

/// Adds a call where it has times, after one that departs at a moment, and gives the moment of the departure then.
fn push_stated(
    alloc: Global,
    calls: &mut Vec<Call>,
    before: Moment,
    call: &Call,
    times: Option<Times>,
) -> Result<Moment, NoMemory>
    ensures { IfOk result (λ departure. (behind : List StatedCall) →
        calls.old.items ++ raised before (stated_list (call_at call.now) times ++ behind) ≡ calls.new.items ++ raised departure behind) }
{
    let Some(times) = times else {
        return Ok(before);
    };
    let raised = raise(before, times);
    calls.push(call_at(alloc, call, raised)?)?;
    Ok(raised.dep)
}

/// The calls with these news of stops.
pub(crate) fn calls_with(
    alloc: Global,
    calls: &[Call],
    stops: &[StopNews],
) -> Result<Vec<Call>, NoMemory>
    requires { InSequence calls.now }
    ensures { IfOk result (λ live. live.items ≡ calls_with calls.now stops.now) }
{
    let named = named_news(alloc, calls, stops)?;
    let mut live = Vec::with_capacity(alloc, calls.len())?;
    let mut late = 0i128;
    let mut before = nearest(0);
    'calls: for (place, call) in calls.iter().enumerate() {
        let telling = stated_call(call, late, named[place]);
        before = push_stated(alloc, &mut live, before, call, telling.times)?;
        late = telling.late;
    }
    Ok(live)
}

fn is_canceled(kind: TripKind) -> bool
    ensures { result ≡ is_canceled kind }
{
    match kind {
        TripKind::Canceled => true,
        TripKind::Scheduled | TripKind::Added => false,
    }
}

/// The calls with the news of their run, none where these cancel it.
fn calls_by(alloc: Global, calls: &[Call], news: &TripNews) -> Result<Vec<Call>, NoMemory>
    requires { InSequence calls.now }
    ensures { IfOk result (λ live. live.items ≡ live_calls_of calls.now (Some news.now)) }
{
    if is_canceled(news.kind) {
        return Ok(Vec::new(alloc));
    }
    calls_with(alloc, calls, news.stops.as_slice())
}

/// Whether a call is on time, and not before a moment.
fn is_kept(before: Moment, call: &Call) -> bool
    ensures { IsTrue result → IsKeptAfter before call.now }
{
    let (arr, dep) = (call.arr.seconds(), call.dep.seconds());
    before.seconds() <= arr && arr <= dep && call.arr_delay == 0 && call.dep_delay == 0
}

/// Whether the calls are the live ones where there are no news: they go forward, and none is late.
fn are_kept(calls: &[Call]) -> bool
    ensures { IsTrue result → live_calls_of calls.now None ≡ calls.now }
{
    let mut before = nearest(0);
    'calls: for call in calls {
        if !is_kept(before, call) {
            return false;
        }
        before = call.dep;
    }
    true
}

/// The calls without news of their run. Where these are the calls themselves, they are shared if copies share them.
fn live_without(alloc: Global, calls: &Calls) -> Result<Calls, NoMemory>
    ensures live { IfOk result (λ live. live ≡ live_calls_of calls.now None) }
    ensures forward { IfOk result GoesForward }
{
    let own = calls.as_slice();
    if are_kept(own) {
        return Ok(calls.copy(alloc)?);
    }
    let live = calls_with(alloc, own, &[])?;
    Ok(Calls::from_list(live))
}

/// The calls with the news of their run.
fn live_with(alloc: Global, calls: &Calls, news: &TripNews) -> Result<Calls, NoMemory>
    ensures live { IfOk result (λ live. live ≡ live_calls_of calls.now (Some news.now)) }
    ensures forward { IfOk result GoesForward }
{
    let live = calls_by(alloc, calls.as_slice(), news)?;
    Ok(Calls::from_list(live))
}

/// The live calls of a run with the news that name it, or without. It takes the time of the calls. News of stops take the time of a
/// sort of the calls, and each of them the logarithm of the calls. A run on time without news has its own calls, which take no memory where
/// copies share them.
pub fn live(alloc: Global, run: &Run, news: Option<&TripNews>) -> Result<Calls, NoMemory>
    ensures live { IfOk result (λ calls. calls ≡ live_calls_of run.now.calls (option_copied news.entry)) }
    ensures forward { IfOk result GoesForward }
{
    match news {
        None => live_without(alloc, &run.calls),
        Some(news) => live_with(alloc, &run.calls, news),
    }
}
