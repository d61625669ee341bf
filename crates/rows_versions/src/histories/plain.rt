//! A version worked out anew: the news in force by its messages, the live runs by these, and their connections sorted.
use super::timetable::FURTHER;
use crate::making::DATE;
use lc_model::{
    Connection, EntityNews, PlainData, Ranked, Run, Runs, Stops, TripKind, TripNews, Update,
};
use live_calls::{added_run_on, connections, live};
use rows_common::Unmade;
use std::alloc::Global;

/// An entity of a full message is beside the others. Another one takes the place of those of its id.
fn put_in_force<'a>(
    force: &mut Vec<&'a EntityNews>,
    entity: &'a EntityNews,
    is_full: bool,
) -> Result<(), Unmade> {
    if !is_full {
        force.retain(|other| other.id() != entity.id());
    }
    if entity.news().is_some() {
        force.push(entity)?;
    }
    Ok(())
}

fn put_update<'a>(force: &mut Vec<&'a EntityNews>, update: &'a Update) -> Result<(), Unmade> {
    if update.full {
        force.clear();
    }
    for entity in update.entities.as_slice() {
        put_in_force(force, entity, update.full)?;
    }
    Ok(())
}

/// The entities in force after these messages.
fn in_force<'a>(alloc: Global, updates: &'a [Update]) -> Result<Vec<&'a EntityNews>, Unmade> {
    let mut force = Vec::new(alloc);
    for update in updates {
        put_update(&mut force, update)?;
    }
    Ok(force)
}

fn is_of_date(news: &TripNews) -> bool {
    match news.date {
        Some(date) => date == DATE,
        None => true,
    }
}

fn is_added(news: &TripNews) -> bool {
    news.kind == TripKind::Added
}

/// The last news of a trip, of which those of added trips count or not.
fn last_news<'a>(force: &[&'a EntityNews], trip: &[u8], with_added: bool) -> Option<&'a TripNews> {
    let mut last = None;
    for entity in force {
        if let Some(news) = entity.news() {
            if news.trip.as_slice() == trip && is_of_date(news) && (with_added || !is_added(news)) {
                last = Some(news);
            }
        }
    }
    last
}

/// The connections of a run under news, or without.
#[tactic(auto, using(live_calls::proofs::ConnectionLemmas::calls_forward))]
fn push_live(
    alloc: Global,
    list: &mut Vec<Connection>,
    run: &Run,
    news: Option<&TripNews>,
) -> Result<(), Unmade> {
    let calls = live(alloc, run, news)?;
    let connections = connections(alloc, run, &calls)?;
    push_each(alloc, list, connections.as_slice())
}

fn push_each(
    alloc: Global,
    list: &mut Vec<Connection>,
    connections: &[Connection],
) -> Result<(), Unmade> {
    for connection in connections {
        list.push(connection.copy(alloc)?)?;
    }
    Ok(())
}

fn push_further(
    alloc: Global,
    list: &mut Vec<Connection>,
    stops: &Stops,
    news: &TripNews,
) -> Result<(), Unmade> {
    match added_run_on(alloc, news, DATE, stops)? {
        Some(run) => push_live(alloc, list, &run, None),
        None => Ok(()),
    }
}

fn push_all(
    alloc: Global,
    list: &mut Vec<Connection>,
    runs: &Runs,
    stops: &Stops,
    force: &[&EntityNews],
) -> Result<(), Unmade> {
    for run in runs.as_slice() {
        let news = last_news(force, run.key.trip.bytes(), false);
        push_live(alloc, list, run, news)?;
    }
    for trip in &FURTHER {
        match last_news(force, trip.as_bytes(), true) {
            Some(news) if is_added(news) => push_further(alloc, list, stops, news)?,
            _ => {}
        }
    }
    Ok(())
}

/// The connections after these messages, in departure order.
pub(super) fn connections_after(
    alloc: Global,
    runs: &Runs,
    stops: &Stops,
    updates: &[Update],
) -> Result<Vec<Connection>, Unmade> {
    let mut list = Vec::new(alloc);
    let force = in_force(alloc, updates)?;
    push_all(alloc, &mut list, runs, stops, force.as_slice())?;
    list.sort_unstable_by(|a, b| a.compare(b));
    Ok(list)
}
