//! A timetable of ten trips of 2024-05-01 over six stops, and the names of five more trips.
use crate::making::{DATE, MIDNIGHT, bytes, stops_of};
use lc_model::{Event, Relation, Run, Runs, StopNews, StopNewsList, Stops, TripKind, TripNews};
use live_calls::added_run;
use rows_common::Unmade;
use std::alloc::Global;

pub(super) static STOPS: [&str; 6] = ["S0", "S1", "S2", "S3", "S4", "S5"];

pub(super) static TRIPS: [&str; 10] = ["T0", "T1", "T2", "T3", "T4", "T5", "T6", "T7", "T8", "T9"];

/// Trips that the timetable does not have.
pub(super) static FURTHER: [&str; 5] = ["X0", "X1", "X2", "X3", "X4"];

pub(super) fn stops(alloc: Global) -> Result<Stops, Unmade> {
    stops_of(alloc, &STOPS)
}

fn at(second: usize) -> Option<Event> {
    Some(Event {
        delay: None,
        time: Some(MIDNIGHT as i64 + (second % 1_000_000) as i64),
    })
}

/// A call at a stop, at which the trip waits a minute.
fn call(alloc: Global, stop: &str, second: usize) -> Result<StopNews, Unmade> {
    let stop = bytes(alloc, stop)?;
    let (arr, dep) = (at(second), at(second % 1_000_000 + 60));
    Ok(StopNews::new(alloc, None, Some(stop), Relation::Scheduled, arr, dep)?)
}

/// The calls of a trip, three to five of them. Each is ten minutes after the one before it.
fn push_calls(alloc: Global, list: &mut Vec<StopNews>, trip: usize) -> Result<(), Unmade> {
    let trip = trip % TRIPS.len();
    for place in 0..3 + trip % 3 {
        let stop = STOPS[(trip + place) % STOPS.len()];
        list.push(call(alloc, stop, 28_800 + 300 * trip + 600 * place)?)?;
    }
    Ok(())
}

fn news_of(alloc: Global, trip: usize, stops: Vec<StopNews>) -> Result<TripNews, Unmade> {
    let trip = bytes(alloc, TRIPS[trip % TRIPS.len()])?;
    Ok(TripNews {
        trip,
        date: Some(DATE),
        start: None,
        kind: TripKind::Added,
        stops: StopNewsList::from_list(stops),
    })
}

fn made(alloc: Global, stops: &Stops, news: &TripNews) -> Result<Run, Unmade> {
    match added_run(alloc, news, stops) {
        Ok(Some(run)) => Ok(run),
        _ => Err(Unmade),
    }
}

fn run(alloc: Global, stops: &Stops, trip: usize) -> Result<Run, Unmade> {
    let mut calls = Vec::new(alloc);
    push_calls(alloc, &mut calls, trip)?;
    let news = news_of(alloc, trip, calls)?;
    made(alloc, stops, &news)
}

fn push_runs(alloc: Global, list: &mut Vec<Run>, stops: &Stops) -> Result<(), Unmade> {
    for trip in 0..TRIPS.len() {
        list.push(run(alloc, stops, trip)?)?;
    }
    Ok(())
}

pub(super) fn runs(alloc: Global, stops: &Stops) -> Result<Runs, Unmade> {
    let mut list = Vec::new(alloc);
    push_runs(alloc, &mut list, stops)?;
    match Runs::try_from_list(list) {
        Ok(runs) => Ok(runs),
        Err(_) => Err(Unmade),
    }
}
