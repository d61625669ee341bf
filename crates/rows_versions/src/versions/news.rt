//! News of trips of 2024-05-01, by the names of lists of news of their stops.
use crate::making::{DATE, MIDNIGHT, bytes};
use When::{At, Late, Unsaid};
use lc_model::{Bytes, Event, Relation, StopNews, StopNewsList, TripKind, TripNews};
use rows_common::Unmade;
use std::alloc::Global;

/// What is said of an arrival or of a departure.
#[derive(Clone, Copy)]
enum When {
    Unsaid,
    /// At a second of the day.
    At(u32),
    Late(i32),
}

/// The name of a list, a sequence, a stop, what is said of it, and its arrival and its departure.
type Said = (
    &'static str,
    Option<u32>,
    Option<&'static str>,
    Relation,
    When,
    When,
);

const SERVED: Relation = Relation::Scheduled;

/// Three trips of a small timetable. That of T1 is said by one time at each end. One serves B twice. One goes from A to D, and
/// one over a stop that is unknown, too. One has one stop alone.
///
/// Then what is said of T1. A is left 900 late and B reached in time, where no call may arrive before the one before it departs.
/// B is left out alone, and after a delay, which goes on over it. There are no data of B, which ends the delay.
///
/// And of the trip that serves B twice. It is B, which is its first call, then B, now its second, then A by its sequence. Then
/// it is B, now its first call again.
static SAID: [Said; 31] = [
    ("T1", None, Some("A"), SERVED, At(28_800), At(28_800)),
    ("T1", None, Some("B"), SERVED, At(29_400), At(29_460)),
    ("T1", None, Some("C"), SERVED, At(30_600), At(30_600)),
    ("T2", None, Some("B"), SERVED, At(30_000), At(30_000)),
    ("T2", None, Some("D"), SERVED, At(31_200), At(31_200)),
    ("T3", None, Some("B"), SERVED, At(29_520), At(29_520)),
    ("T3", None, Some("D"), SERVED, At(30_660), At(30_660)),
    ("one time", None, Some("A"), SERVED, Unsaid, At(28_800)),
    ("one time", None, Some("B"), SERVED, At(29_400), At(29_460)),
    ("one time", None, Some("C"), SERVED, At(30_600), Unsaid),
    ("loop", None, Some("A"), SERVED, Unsaid, At(28_800)),
    ("loop", None, Some("B"), SERVED, At(29_400), Unsaid),
    ("loop", None, Some("C"), SERVED, At(30_000), Unsaid),
    ("loop", None, Some("B"), SERVED, At(30_600), Unsaid),
    ("A to D", None, Some("A"), SERVED, Unsaid, At(29_100)),
    ("A to D", None, Some("D"), SERVED, At(30_300), Unsaid),
    ("over Q", None, Some("A"), SERVED, Unsaid, At(29_100)),
    ("over Q", None, Some("Q"), SERVED, At(29_400), Unsaid),
    ("over Q", None, Some("D"), SERVED, At(30_300), Unsaid),
    ("one stop", None, Some("A"), SERVED, Unsaid, At(29_100)),
    ("A left late", Some(1), None, SERVED, Unsaid, Late(900)),
    ("A left late", Some(2), None, SERVED, Late(0), Unsaid),
    (
        "B left out",
        Some(2),
        None,
        Relation::Skipped,
        Unsaid,
        Unsaid,
    ),
    (
        "A left late and B left out",
        Some(1),
        None,
        SERVED,
        Unsaid,
        Late(60),
    ),
    (
        "A left late and B left out",
        Some(2),
        None,
        Relation::Skipped,
        Unsaid,
        Unsaid,
    ),
    (
        "A left late and no data of B",
        Some(1),
        None,
        SERVED,
        Unsaid,
        Late(60),
    ),
    (
        "A left late and no data of B",
        Some(2),
        None,
        Relation::NoData,
        Unsaid,
        Unsaid,
    ),
    ("named by stop", None, Some("B"), SERVED, Late(60), Unsaid),
    ("named by stop", None, Some("B"), SERVED, Late(120), Unsaid),
    ("named by stop", Some(1), None, SERVED, Late(0), Unsaid),
    ("named by stop", None, Some("B"), SERVED, Late(180), Unsaid),
];

/// News of a trip with the list of this name.
pub(super) fn news(
    alloc: Global,
    trip: &str,
    kind: TripKind,
    name: &str,
) -> Result<TripNews, Unmade> {
    let trip = bytes(alloc, trip)?;
    let stops = said(alloc, name)?;
    Ok(TripNews {
        trip,
        date: Some(DATE),
        start: None,
        kind,
        stops,
    })
}

fn said(alloc: Global, name: &str) -> Result<StopNewsList, Unmade> {
    let mut list = Vec::new(alloc);
    push_each(alloc, &mut list, name)?;
    Ok(StopNewsList::from_list(list))
}

fn push_each(alloc: Global, list: &mut Vec<StopNews>, name: &str) -> Result<(), Unmade> {
    for row in &SAID {
        if row.0 == name {
            push(alloc, list, row)?;
        }
    }
    Ok(())
}

fn push(alloc: Global, list: &mut Vec<StopNews>, row: &Said) -> Result<(), Unmade> {
    let news = stop_news(alloc, row)?;
    Ok(list.push(news)?)
}

fn stop_news(alloc: Global, row: &Said) -> Result<StopNews, Unmade> {
    let &(_, seq, stop, relation, arr, dep) = row;
    let stop = stop_named(alloc, stop)?;
    let (arr, dep) = (event(arr), event(dep));
    Ok(StopNews::new(alloc, seq, stop, relation, arr, dep)?)
}

fn stop_named(alloc: Global, stop: Option<&str>) -> Result<Option<Bytes>, Unmade> {
    match stop {
        Some(id) => Ok(Some(bytes(alloc, id)?)),
        None => Ok(None),
    }
}

fn event(when: When) -> Option<Event> {
    let (delay, time) = match when {
        When::Unsaid => return None,
        When::At(second) => (None, Some(MIDNIGHT as i64 + second as i64)),
        When::Late(delay) => (Some(delay), None),
    };
    Some(Event { delay, time })
}
