//! A journey and its copy.
use crate::making::id;
use lc_model::{Journey, Moment, PlainData, Ride, Rides, RunKey, ServiceDate, Walk};
use rows_common::{Unmade, put_count, put_flag};
use std::alloc::Global;

fn key(alloc: Global) -> Result<RunKey, Unmade> {
    let trip = id(alloc, "T4")?;
    Ok(RunKey {
        trip,
        date: ServiceDate {
            year: 2024,
            month: 5,
            day: 1,
        },
        start: None,
    })
}

/// When the ride departs and arrives.
fn times() -> Result<(Moment, Moment), Unmade> {
    match (Moment::new(1_714_554_000), Moment::new(1_714_554_600)) {
        (Some(dep), Some(arr)) => Ok((dep, arr)),
        _ => Err(Unmade),
    }
}

fn ride(alloc: Global) -> Result<Ride, Unmade> {
    let (dep, arr) = times()?;
    let key = key(alloc)?;
    ride_between(alloc, key, dep, arr)
}

fn ride_between(alloc: Global, key: RunKey, dep: Moment, arr: Moment) -> Result<Ride, Unmade> {
    let board = id(alloc, "E")?;
    let alight = id(alloc, "F")?;
    Ok(Ride {
        key,
        first_seq: 1,
        last_seq: 1,
        board,
        dep,
        alight,
        arr,
    })
}

fn walk(alloc: Global) -> Result<Walk, Unmade> {
    let from = id(alloc, "B")?;
    let to = id(alloc, "E")?;
    Ok(Walk {
        from,
        to,
        seconds: 300,
    })
}

fn journey(alloc: Global) -> Result<Journey, Unmade> {
    let rides = vec![in alloc; ride(alloc)?]?;
    let walk = walk(alloc)?;
    Ok(Journey {
        before: Some(walk),
        rides: Rides::from_list(rides),
        after: None,
    })
}

/// A journey of one ride with a walk before it, and whether each part of its copy is as it is.
pub(super) fn put_journeys(alloc: Global, text: &mut String) -> Result<(), Unmade> {
    let journey = journey(alloc)?;
    put_copied_journey(alloc, text, &journey)
}

fn put_copied_journey(alloc: Global, text: &mut String, journey: &Journey) -> Result<(), Unmade> {
    match journey.copy(alloc) {
        Ok(copy) => put_sameness(text, journey, &copy),
        Err(_) => Err(Unmade),
    }
}

fn put_sameness(text: &mut String, journey: &Journey, copy: &Journey) -> Result<(), Unmade> {
    put_flag(text, "same walk before", copy.before == journey.before)?;
    put_flag(text, "same walk after", copy.after == journey.after)?;
    put_same_ride(text, journey.rides.as_slice(), copy.rides.as_slice())
}

fn put_same_ride(text: &mut String, rides: &[Ride], copies: &[Ride]) -> Result<(), Unmade> {
    put_count(text, "number of copied rides", copies.len())?;
    match (rides, copies) {
        ([ride], [copy]) => put_flag(text, "same ride", *copy == *ride),
        _ => Err(Unmade),
    }
}
