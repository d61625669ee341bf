ghost use Rattle.std.specs.Prelude.{◌≡◌, ◌++◌, ◌<◌, ℕ, suc, IfOk, IfSome, List, Some, is_some, length, option_to_list, slice_index_or};
ghost use Rattle.lc_model.specs.Call.{InSequence};
ghost use Rattle.lc_model.specs.Stop.{InStopOrder};
ghost use Rattle.lc_model.specs.declared.stop.Stop.{Stop as StatedStop};
ghost use Rattle.lc_model.specs.Versions.Added.{added_call, added_call_at, added_calls, has_stop, is_skipped, time_of};
ghost use Rattle.lc_model.specs.Versions.Live.{StatedCall, raised};
ghost use Rattle.live_calls.specs.Walk.{added_by, served_times, times_said};

use crate::forward::{Raised, nearest, raise};
use crate::stated::Times;
use lc_model::{Call, Event, Id, Moment, NoMemory, PlainData, Relation, Stop, StopNews};
use std::alloc::Global;

fn is_skipped(relation: Relation) -> bool
    ensures { result ≡ is_skipped relation }
{
    match relation {
        Relation::Skipped => true,
        Relation::Scheduled | Relation::NoData => false,
    }
}

fn time_of(event: Option<Event>) -> Option<i64>
    ensures { result ≡ time_of event }
{
    match event {
        Some(event) => event.time,
        None => None,
    }
}

/// An arrival and a departure, of which one may be missing and is then the other one.
fn times_said(arr: Option<i64>, dep: Option<i64>) -> Option<Times>
    ensures { result ≡ times_said arr dep }
{
    let (arr, dep) = match (arr, dep) {
        (Some(arr), Some(dep)) => (arr, dep),
        (Some(arr), None) => (arr, arr),
        (None, Some(dep)) => (dep, dep),
        (None, None) => return None,
    };
    Some(Times {
        arr: arr as i128,
        dep: dep as i128,
    })
}

/// The times at which an added trip serves a stop, if it does and they are said.
fn served_times(news: &StopNews) -> Option<Times>
    ensures { result ≡ served_times news.now }
{
    if is_skipped(news.relation()) {
        return None;
    }
    times_said(time_of(news.arr()), time_of(news.dep()))
}

/// The place of the stop of this id. Takes the logarithm of the stops.
fn stop_named(stops: &[Stop], id: &[u8]) -> Option<usize>
    requires { InStopOrder stops.now }
    ensures known { is_some result ≡ has_stop stops.now id.now }
    ensures inside { IfSome result (λ place. place < length stops.now) }
    ensures named { IfSome result (λ place. (d : StatedStop) → (slice_index_or stops.now place d).id ≡ id.now) }
{
    stops.binary_search_by(|stop| stop.id.bytes().cmp(id)).ok()
}

/// A call of a further run, where one may board and alight, and which is on time.
fn added_call_at(alloc: Global, stop: &Id, seq: u32, raised: Raised) -> Result<Call, NoMemory>
    ensures { IfOk result (λ call. call ≡ added_call_at stop.now seq raised.arr raised.dep) }
{
    Ok(Call {
        stop: stop.copy(alloc)?,
        seq,
        arr: raised.arr,
        dep: raised.dep,
        board: true,
        alight: true,
        arr_delay: 0,
        dep_delay: 0,
    })
}

/// Adds a call at a stop if it is known, after one that departs at a moment, and gives the moment of the departure then.
fn push_at_stop(
    alloc: Global,
    calls: &mut Vec<Call>,
    before: Moment,
    stops: &[Stop],
    seq: u32,
    stop: &[u8],
    times: Times,
) -> Result<Moment, NoMemory>
    requires { InStopOrder stops.now }
    ensures { IfOk result (λ departure. (behind : List StatedCall) →
        calls.old.items ++ raised before (option_to_list (added_by stops.now seq (Some times) (Some stop.now)) ++ behind)
        ≡ calls.new.items ++ raised departure behind) }
{
    let Some(place) = stop_named(stops, stop) else {
        return Ok(before);
    };
    let raised = raise(before, times);
    calls.push(added_call_at(alloc, &stops[place].id, seq, raised)?)?;
    Ok(raised.dep)
}

/// Adds the call that the news of a stop give, if they give one.
fn push_added(
    alloc: Global,
    calls: &mut Vec<Call>,
    before: Moment,
    stops: &[Stop],
    seq: u32,
    news: &StopNews,
) -> Result<Moment, NoMemory>
    requires { InStopOrder stops.now }
    ensures { IfOk result (λ departure. (behind : List StatedCall) →
        calls.old.items ++ raised before (option_to_list (added_by stops.now seq (served_times news.now) news.now.stop) ++ behind)
        ≡ calls.new.items ++ raised departure behind) }
{
    match (served_times(news), news.stop()) {
        (Some(times), Some(stop)) => push_at_stop(alloc, calls, before, stops, seq, stop, times),
        _ => Ok(before),
    }
}

/// The sequence of the call at a place, counted from 0. Out of memory where there is none.
fn sequence_at(place: usize) -> Result<u32, NoMemory>
    ensures { IfOk result (λ seq. seq ≡ suc place) }
{
    match u32::try_from(place) {
        Ok(seq) if seq < u32::MAX => Ok(seq + 1),
        _ => Err(NoMemory),
    }
}

/// The calls that the news of stops of an added trip give. Each takes the logarithm of the stops. Out of memory where there
/// are more news than sequences.
pub(crate) fn added_calls(
    alloc: Global,
    stops: &[Stop],
    news: &[StopNews],
) -> Result<Vec<Call>, NoMemory>
    requires { InStopOrder stops.now }
    ensures { IfOk result (λ calls. calls.items ≡ added_calls stops.now news.now) }
{
    let mut calls = Vec::with_capacity(alloc, news.len())?;
    let mut before = nearest(0);
    'news: for (place, said) in news.iter().enumerate() {
        let seq = sequence_at(place)?;
        before = push_added(alloc, &mut calls, before, stops, seq, said)?;
    }
    Ok(calls)
}
