ghost use Rattle.std.specs.Prelude.{◌≡◌, ◌↔◌, IfOk, IsTrue};
ghost use Rattle.std.specs.Ordering.{on};
ghost use Rattle.std.specs.Result.{IsOk, result_err};
ghost use Rattle.lc_model.specs.Disorder.{first_disorder};
ghost use Rattle.lc_model.specs.Stop.{HasStop, InStopOrder};
ghost use Rattle.lc_model.specs.Text.{id_cmp};
ghost use Rattle.lc_model.specs.declared.stop.Stop.{Stop as StatedStop};

use crate::{Id, NoMemory, PlainData, Text, copy_each, first_disorder};
use std::alloc::Global;
use std::marker::Model;

/// A stop, or a station where other stops name it as their parent (GTFS Schedule Reference, stops.txt).
#[derive(Drop)]
pub struct Stop {
    pub id: Id,
    pub name: Text,
    pub parent: Option<Id>,
}

impl PlainData for Stop {
    fn copy(&self, alloc: Global) -> Result<Stop, NoMemory> {
        Ok(Stop {
            id: self.id.copy(alloc)?,
            name: self.name.copy(alloc)?,
            parent: self.parent.copy(alloc)?,
        })
    }
}

/// Stops, strictly ordered by their ids.
#[derive(Drop)]
pub struct Stops {
    items: Vec<Stop>,
}

impl Model for Stops {
    ghost use Rattle.std.specs.Prelude.{List};
    ghost use Rattle.lc_model.specs.declared.stop.Stop.{Stop};
    ghost use Rattle.lc_model.specs.Stop.{InStopOrder};

    ghost Value = { List Stop };

    ghost view = { λ s. s.items.items };

    ghost invariant = { λ s. InStopOrder s.items.items };
}

impl Stops {
    pub fn from_list(list: Vec<Stop>) -> Stops
        requires { InStopOrder list.items }
        ensures { result ≡ list.items }
    {
        Stops { items: list }
    }

    /// These in a list, if they are strictly in order. Else the first place, counted from 0, whose item does not come
    /// after the one before it. Linear in the list.
    pub fn try_from_list(list: Vec<Stop>) -> Result<Stops, usize>
        ensures same { IfOk result (λ same. same ≡ list.items) }
        ensures in_order { IsOk result ↔ InStopOrder list.items }
        ensures disorder { result_err result ≡ first_disorder (on (λ (stop : StatedStop). stop.id) id_cmp) list.items }
    {
        match first_disorder(list.as_slice()) {
            Some(place) => Err(place),
            None => Ok(Stops { items: list }),
        }
    }

    pub fn as_slice(&self) -> &[Stop]
        ensures value { result.now ≡ self.now }
        ensures in_order { InStopOrder result.now }
    {
        self.items.as_slice()
    }

    /// Whether one of the stops has this id. Takes the logarithm of the stops.
    pub fn has(&self, id: &Id) -> bool
        ensures { IsTrue result ↔ HasStop self.now id.now }
    {
        self.as_slice()
            .binary_search_by(|stop| stop.id.cmp(id))
            .is_ok()
    }
}

impl PlainData for Stops {
    fn copy(&self, alloc: Global) -> Result<Stops, NoMemory> {
        let items = copy_each(alloc, self.as_slice())?;
        Ok(Stops::from_list(items))
    }
}
