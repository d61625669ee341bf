//! Questions, moments and connections of the cases.
ghost use Rattle.std.specs.Prelude.{◌≡◌, ◌+◌, IfOk, IsTrue};
ghost use Rattle.lc_model.specs.Connection.{NoneArrivesEarly};

use crate::feeds::Row;
use lc_model::{Connection, Connections, Id, Moment, Query, RunKey, ServiceDate};
use rows_common::Unmade;
use std::alloc::Global;

/// 2024-05-01T00:00:00Z, from which the tables count their seconds.
pub(crate) const MIDNIGHT: u64 = 1_714_521_600;

const DATE: ServiceDate = ServiceDate {
    year: 2024,
    month: 5,
    day: 1,
};

pub(crate) fn id(alloc: Global, text: &str) -> Result<Id, Unmade> {
    Ok(Id::new(alloc, text.as_bytes())?.ok_or("an id")?)
}

pub(crate) fn moment(second: u32) -> Result<Moment, Unmade>
    ensures { IfOk result (λ moment. moment ≡ MIDNIGHT + second) }
{
    Ok(Moment::new(MIDNIGHT + u64::from(second)).ok_or("a moment")?)
}

/// The question from a stop to a stop, leaving at a second, within a horizon.
pub(crate) fn question(
    alloc: Global,
    from: &str,
    to: &str,
    leave: u32,
    horizon: u32,
) -> Result<Query, Unmade> {
    let leave = moment(leave)?;
    Ok(Query {
        from: id(alloc, from)?,
        to: id(alloc, to)?,
        leave,
        known: None,
        horizon,
    })
}

fn is_forward(list: &[Connection]) -> bool
    ensures { IsTrue result → NoneArrivesEarly list.now }
{
    list.iter().all(|c| c.dep <= c.arr)
}

pub(crate) fn connections(alloc: Global, rows: &[Row]) -> Result<Connections, Unmade> {
    let mut list = Vec::new(alloc);
    for row in rows {
        push(alloc, &mut list, row)?;
    }
    if !is_forward(list.as_slice()) {
        return Err(Unmade);
    }
    Ok(Connections::from_list(list))
}

fn push(alloc: Global, list: &mut Vec<Connection>, row: &Row) -> Result<(), Unmade> {
    let connection = connection(alloc, row)?;
    Ok(list.push(connection)?)
}

fn connection(alloc: Global, row: &Row) -> Result<Connection, Unmade> {
    let &(trip, seq, dep_stop, dep, arr_stop, arr) = row;
    let (dep, arr) = (moment(dep)?, moment(arr)?);
    Ok(Connection {
        key: RunKey {
            trip: id(alloc, trip)?,
            date: DATE,
            start: None,
        },
        seq,
        dep_stop: id(alloc, dep_stop)?,
        dep,
        arr_stop: id(alloc, arr_stop)?,
        arr,
        board: true,
        alight: true,
        dep_delay: 0,
        arr_delay: 0,
    })
}
