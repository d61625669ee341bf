ghost use Rattle.std.specs.Prelude.{◌≡◌, IfOk};
ghost use Rattle.lc_model.specs.Call.{InSequence};
ghost use Rattle.lc_model.specs.Held.{held_calls};

use crate::{Id, Moment, NoMemory, PlainData, copy_each};
use std::alloc::Global;
use std::marker::Model;
use std::rc::RcSlice;

/// A stop of a run: when it arrives there and departs, and whether one may board and alight. Delays are in seconds
/// against the schedule.
#[derive(PartialEq, Eq, Drop)]
pub struct Call {
    pub stop: Id,
    pub seq: u32,
    pub arr: Moment,
    pub dep: Moment,
    pub board: bool,
    pub alight: bool,
    pub arr_delay: i64,
    pub dep_delay: i64,
}

impl PlainData for Call {
    fn copy(&self, alloc: Global) -> Result<Call, NoMemory> {
        Ok(Call {
            stop: self.stop.copy(alloc)?,
            seq: self.seq,
            arr: self.arr,
            dep: self.dep,
            board: self.board,
            alight: self.alight,
            arr_delay: self.arr_delay,
            dep_delay: self.dep_delay,
        })
    }
}

/// Calls that have one owner, or those that copies share.
#[derive(Drop)]
enum Held {
    Own(Vec<Call>),
    Shared(RcSlice<Call>),
}

impl Held {
    fn as_slice(&self) -> &[Call]
        ensures { result.now ≡ held_calls self.now }
    {
        match self {
            Held::Own(calls) => calls.as_slice(),
            Held::Shared(calls) => calls.as_slice(),
        }
    }

    fn copy(&self, alloc: Global) -> Result<Held, NoMemory>
        ensures { IfOk result (λ copy. held_calls copy ≡ held_calls self.now) }
    {
        match self {
            Held::Own(calls) => Ok(Held::Own(copy_each(alloc, calls.as_slice())?)),
            Held::Shared(calls) => Ok(Held::Shared(calls.clone()?)),
        }
    }
}

/// The calls of a run. Their sequences strictly increase.
#[derive(Drop)]
pub struct Calls {
    held: Held,
}

impl Model for Calls {
    ghost use Rattle.std.specs.Prelude.{List};
    ghost use Rattle.lc_model.specs.declared.call.Call.{Call};

    ghost Value = { List Call };

    ghost use Rattle.lc_model.specs.Call.{InSequence};
    ghost use Rattle.lc_model.specs.Held.{held_calls};

    ghost view = { λ c. held_calls c.held };

    ghost invariant = { λ c. InSequence (held_calls c.held) };
}

impl Calls {
    pub fn from_list(list: Vec<Call>) -> Calls
        requires { InSequence list.items }
        ensures { result ≡ list.items }
    {
        Calls {
            held: Held::Own(list),
        }
    }

    /// These calls, which copies share: a copy takes no memory.
    pub fn shared(list: Vec<Call>) -> Result<Calls, NoMemory>
        requires { InSequence list.items }
        ensures { IfOk result (λ calls. calls ≡ list.items) }
    {
        Ok(Calls {
            held: Held::Shared(RcSlice::from_vec(list)?),
        })
    }

    pub fn as_slice(&self) -> &[Call]
        ensures value { result.now ≡ self.now }
        ensures in_order { InSequence result.now }
    {
        self.held.as_slice()
    }
}

impl PlainData for Calls {
    /// Takes no memory where the calls are shared.
    fn copy(&self, alloc: Global) -> Result<Calls, NoMemory> {
        Ok(Calls {
            held: self.held.copy(alloc)?,
        })
    }
}
