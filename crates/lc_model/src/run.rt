ghost use Rattle.std.specs.Prelude.{◌≡◌, ◌↔◌, IfOk};
ghost use Rattle.std.specs.Ordering.{on};
ghost use Rattle.std.specs.Result.{IsOk, result_err};
ghost use Rattle.lc_model.specs.Disorder.{first_disorder};
ghost use Rattle.lc_model.specs.Run.{InKeyOrder};
ghost use Rattle.lc_model.specs.RunKey.{key_cmp};
ghost use Rattle.lc_model.specs.declared.run.Run.{Run as StatedRun};

use crate::{Calls, NoMemory, PlainData, RunKey, copy_each, first_disorder};
use std::alloc::Global;
use std::marker::Model;

/// One journey of a vehicle on one service date.
#[derive(Drop)]
pub struct Run {
    pub key: RunKey,
    pub calls: Calls,
}

impl PlainData for Run {
    fn copy(&self, alloc: Global) -> Result<Run, NoMemory> {
        Ok(Run {
            key: self.key.copy(alloc)?,
            calls: self.calls.copy(alloc)?,
        })
    }
}

/// The runs of a timetable, strictly ordered by their keys.
#[derive(Drop)]
pub struct Runs {
    items: Vec<Run>,
}

impl Model for Runs {
    ghost use Rattle.std.specs.Prelude.{List};
    ghost use Rattle.lc_model.specs.declared.run.Run.{Run};
    ghost use Rattle.lc_model.specs.Run.{InKeyOrder};

    ghost Value = { List Run };

    ghost view = { λ r. r.items.items };

    ghost invariant = { λ r. InKeyOrder r.items.items };
}

impl Runs {
    pub fn from_list(list: Vec<Run>) -> Runs
        requires { InKeyOrder list.items }
        ensures { result ≡ list.items }
    {
        Runs { items: list }
    }

    /// These in a list, if they are strictly in order. Else the first place, counted from 0, whose item does not come
    /// after the one before it. Linear in the list.
    pub fn try_from_list(list: Vec<Run>) -> Result<Runs, usize>
        ensures same { IfOk result (λ same. same ≡ list.items) }
        ensures in_order { IsOk result ↔ InKeyOrder list.items }
        ensures disorder { result_err result ≡ first_disorder (on (λ (run : StatedRun). run.key) key_cmp) list.items }
    {
        match first_disorder(list.as_slice()) {
            Some(place) => Err(place),
            None => Ok(Runs { items: list }),
        }
    }

    pub fn as_slice(&self) -> &[Run]
        ensures value { result.now ≡ self.now }
        ensures in_order { InKeyOrder result.now }
    {
        self.items.as_slice()
    }
}

impl PlainData for Runs {
    fn copy(&self, alloc: Global) -> Result<Runs, NoMemory> {
        let items = copy_each(alloc, self.as_slice())?;
        Ok(Runs::from_list(items))
    }
}
