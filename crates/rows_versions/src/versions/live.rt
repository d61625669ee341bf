//! Live calls and added trips, worked out by hand from their rules (GTFS Realtime Reference).
use super::news::news;
use super::trips::{added, run, second};
use crate::making::DATE;
use lc_model::{Call, Connection, Run, Stops, TripKind, TripNews};
use live_calls::{
    added_key, added_run_on, calls_go_forward, connections, live, live_without_news, one_added_run,
    one_list_of_live_runs,
};
use rows_common::{Draft, Unmade};
use std::alloc::Global;
use std::fmt::Display;

/// The lines of live calls and of added trips.
pub(super) fn put_live_calls(alloc: Global, draft: &mut Draft, stops: &Stops) {
    put_live(alloc, draft, stops);
    put_named_by_stop(alloc, draft, stops);
    put_added(alloc, draft, stops);
}

/// News of T1, each with the list of its name.
static LIVE: [(&str, TripKind); 6] = [
    ("nothing said", TripKind::Scheduled),
    ("A left late", TripKind::Scheduled),
    ("B left out", TripKind::Scheduled),
    ("A left late and B left out", TripKind::Scheduled),
    ("A left late and no data of B", TripKind::Scheduled),
    ("canceled", TripKind::Canceled),
];

/// Each call: stop, sequence, both times of the day and both delays.
fn put_calls(draft: &mut Draft, calls: &[Call]) {
    for call in calls {
        draft.put(call.stop.as_str());
        put_spaced(draft, &call.seq);
        put_spaced(draft, &second(call.arr));
        put_spaced(draft, &second(call.dep));
        put_spaced(draft, &call.arr_delay);
        put_spaced(draft, &call.dep_delay);
        draft.put("; ");
    }
}

fn put_spaced<T: Display>(draft: &mut Draft, shown: &T) {
    draft.put(" ");
    draft.put_shown(shown);
}

/// Each connection: both stops, each with the second of the day.
fn put_connections(draft: &mut Draft, list: &[Connection]) {
    for connection in list {
        draft.put(connection.dep_stop.as_str());
        put_spaced(draft, &second(connection.dep));
        draft.put_all(&[" ", connection.arr_stop.as_str()]);
        put_spaced(draft, &second(connection.arr));
        draft.put(". ");
    }
}

/// The line of calls and connections.
fn put_both(draft: &mut Draft, name: &str, calls: &[Call], list: &[Connection]) {
    draft.put_all(&[name, ": "]);
    put_calls(draft, calls);
    put_connections(draft, list);
    draft.put("\n");
}

/// A line with the live calls of a run under news, or without, and its connections.
#[tactic(auto, using(live_calls::proofs::ConnectionLemmas::calls_forward))]
fn put_live_by(alloc: Global, draft: &mut Draft, name: &str, run: &Run, news: Option<&TripNews>) {
    let Ok(calls) = live(alloc, run, news) else {
        return draft.lose();
    };
    let Ok(list) = connections(alloc, run, &calls) else {
        return draft.lose();
    };
    put_both(draft, name, calls.as_slice(), list.as_slice());
}

fn put_live_under(alloc: Global, draft: &mut Draft, run: &Run, name: &str, kind: TripKind) {
    match news(alloc, "T1", kind, name) {
        Ok(news) => put_live_by(alloc, draft, name, run, Some(&news)),
        Err(Unmade) => draft.lose(),
    }
}

fn put_live_of(alloc: Global, draft: &mut Draft, run: &Run) {
    for &(name, kind) in &LIVE {
        put_live_under(alloc, draft, run, name, kind);
    }
    put_live_by(alloc, draft, "no news", run, None);
}

/// A line for T1 under each row of `LIVE`, and one without news.
fn put_live(alloc: Global, draft: &mut Draft, stops: &Stops) {
    calls_go_forward();
    one_list_of_live_runs();
    live_without_news();
    match run(alloc, stops, "T1", "one time") {
        Ok(run) => put_live_of(alloc, draft, &run),
        Err(Unmade) => draft.lose(),
    }
}

/// A line for a trip that serves B twice, under news that name a stop.
fn put_named_by_stop(alloc: Global, draft: &mut Draft, stops: &Stops) {
    match run(alloc, stops, "T1", "loop") {
        Ok(run) => put_live_under(alloc, draft, &run, "named by stop", TripKind::Scheduled),
        Err(Unmade) => draft.lose(),
    }
}

/// Added trips with the lists of their stops. A stop that is unknown is left out, so that the second call has the sequence 3.
static ADDED: [(&str, &str, &str); 4] = [
    ("added", "X1", "A to D"),
    ("added over an unknown stop", "X1", "over Q"),
    ("added at one stop", "X1", "one stop"),
    ("added without a name", "", "A to D"),
];

/// A line for each row of `ADDED`; and for news without a stop the trip of their key, and that they make no run.
fn put_added(alloc: Global, draft: &mut Draft, stops: &Stops) {
    one_added_run();
    for &(name, trip, list) in &ADDED {
        put_added_row(alloc, draft, stops, name, trip, list);
    }
    put_without_stop(alloc, draft, stops);
}

/// The line of an added trip: its calls, or that there is none.
fn put_added_row(
    alloc: Global,
    draft: &mut Draft,
    stops: &Stops,
    name: &str,
    trip: &str,
    list: &str,
) {
    match added(alloc, stops, trip, list) {
        Ok(Some(run)) => put_both(draft, name, run.calls.as_slice(), &[]),
        Ok(None) => draft.put_all(&[name, ": none\n"]),
        Err(Unmade) => draft.lose(),
    }
}

fn put_without_stop(alloc: Global, draft: &mut Draft, stops: &Stops) {
    match news(alloc, "T1", TripKind::Added, "nothing said") {
        Ok(news) => {
            put_key(alloc, draft, &news);
            put_run(alloc, draft, stops, &news);
        }
        Err(Unmade) => draft.lose(),
    }
}

fn put_key(alloc: Global, draft: &mut Draft, news: &TripNews) {
    draft.put("key of an added trip without a stop: ");
    match added_key(alloc, news, DATE) {
        Ok(Some(key)) => draft.put(key.trip.as_str()),
        _ => draft.lose(),
    }
    draft.put("\n");
}

fn put_run(alloc: Global, draft: &mut Draft, stops: &Stops, news: &TripNews) {
    draft.put("run of an added trip without a stop: ");
    match added_run_on(alloc, news, DATE, stops) {
        Ok(Some(_)) => draft.put("some\n"),
        Ok(None) => draft.put("none\n"),
        Err(_) => draft.lose(),
    }
}
