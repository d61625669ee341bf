//! Stops without names, bytes, and the day of the cases.
use lc_model::{Bytes, Id, ServiceDate, Stop, Stops, Text};
use rows_common::Unmade;
use std::alloc::Global;

/// The midnight of 2024-05-01 in UTC, from which all times of the cases count.
pub(crate) const MIDNIGHT: u64 = 1_714_521_600;

pub(crate) const DATE: ServiceDate = ServiceDate {
    year: 2024,
    month: 5,
    day: 1,
};

fn stop(alloc: Global, id: &str) -> Result<Stop, Unmade> {
    match Id::new(alloc, id.as_bytes()) {
        Ok(Some(id)) => Ok(Stop {
            id,
            name: Text::from_string(String::new(alloc)),
            parent: None,
        }),
        _ => Err(Unmade),
    }
}

fn push_stops(alloc: Global, list: &mut Vec<Stop>, ids: &[&str]) -> Result<(), Unmade> {
    for id in ids {
        list.push(stop(alloc, id)?)?;
    }
    Ok(())
}

/// Stops of these ids.
pub(crate) fn stops_of(alloc: Global, ids: &[&str]) -> Result<Stops, Unmade> {
    let mut list = Vec::new(alloc);
    push_stops(alloc, &mut list, ids)?;
    match Stops::try_from_list(list) {
        Ok(stops) => Ok(stops),
        Err(_) => Err(Unmade),
    }
}

pub(crate) fn bytes(alloc: Global, text: &str) -> Result<Bytes, Unmade> {
    Ok(Bytes::from_list(text.as_bytes().to_vec(alloc)?))
}
