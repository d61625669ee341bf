ghost use Rattle.std.specs.Prelude.{◌≡◌};
ghost use Rattle.lc_model.specs.Connection.{NoneArrivesEarly};

use crate::{Call, Id, Moment, NoMemory, PlainData, RunKey, copy_each};
use std::alloc::Global;
use std::marker::Model;

/// A departure of a run and its next arrival. Delays are in seconds against the schedule.
#[derive(PartialEq, Eq, Drop)]
pub struct Connection {
    pub key: RunKey,
    /// The `stop_sequence` of the call of departure.
    pub seq: u32,
    pub dep_stop: Id,
    pub dep: Moment,
    pub arr_stop: Id,
    pub arr: Moment,
    /// Whether one may board at the departure.
    pub board: bool,
    /// Whether one may alight at the arrival.
    pub alight: bool,
    pub dep_delay: i64,
    pub arr_delay: i64,
}

impl Connection {
    ghost use Rattle.std.specs.Prelude.{IfOk};
    ghost use Rattle.lc_model.specs.Connection.{connection_between};

    /// The connection of a run from one of its calls to another.
    pub fn between(
        alloc: Global,
        key: &RunKey,
        from: &Call,
        to: &Call,
    ) -> Result<Connection, NoMemory>
        ensures { IfOk result (λ connection. connection ≡ connection_between key.now from.now to.now) }
    {
        Ok(Connection {
            key: key.copy(alloc)?,
            seq: from.seq,
            dep_stop: from.stop.copy(alloc)?,
            dep: from.dep,
            arr_stop: to.stop.copy(alloc)?,
            arr: to.arr,
            board: from.board,
            alight: to.alight,
            dep_delay: from.dep_delay,
            arr_delay: to.arr_delay,
        })
    }
}

impl PlainData for Connection {
    fn copy(&self, alloc: Global) -> Result<Connection, NoMemory> {
        Ok(Connection {
            key: self.key.copy(alloc)?,
            seq: self.seq,
            dep_stop: self.dep_stop.copy(alloc)?,
            dep: self.dep,
            arr_stop: self.arr_stop.copy(alloc)?,
            arr: self.arr,
            board: self.board,
            alight: self.alight,
            dep_delay: self.dep_delay,
            arr_delay: self.arr_delay,
        })
    }
}

/// A list of connections, none of which arrives before it departs.
#[derive(Drop)]
pub struct Connections {
    items: Vec<Connection>,
}

impl Model for Connections {
    ghost use Rattle.std.specs.Prelude.{List};
    ghost use Rattle.lc_model.specs.declared.connection.Connection.{Connection};
    ghost use Rattle.lc_model.specs.Connection.{NoneArrivesEarly};

    ghost Value = { List Connection };

    ghost view = { λ c. c.items.items };

    ghost invariant = { λ c. NoneArrivesEarly c.items.items };
}

impl Connections {
    pub fn from_list(list: Vec<Connection>) -> Connections
        requires { NoneArrivesEarly list.items }
        ensures { result ≡ list.items }
    {
        Connections { items: list }
    }

    pub fn as_slice(&self) -> &[Connection]
        ensures value { result.now ≡ self.now }
        ensures forward { NoneArrivesEarly result.now }
    {
        self.items.as_slice()
    }
}

impl PlainData for Connections {
    fn copy(&self, alloc: Global) -> Result<Connections, NoMemory> {
        let items = copy_each(alloc, self.as_slice())?;
        Ok(Connections::from_list(items))
    }
}
