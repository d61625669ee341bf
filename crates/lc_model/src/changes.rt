ghost use Rattle.std.specs.Prelude.{◌≡◌, ◌↔◌, IfOk};
ghost use Rattle.std.specs.Result.{IsOk, result_err};
ghost use Rattle.lc_model.specs.Change.{InChangeOrder, change_between, change_cmp, changes_from};
ghost use Rattle.lc_model.specs.Disorder.{first_disorder};

use crate::{Change, Id, NoMemory, PlainData, copy_each, first_disorder, items_of};
use std::alloc::Global;
use std::marker::Model;

/// Changes, strictly ordered by the stop that one leaves and the stop that one reaches.
#[derive(Drop)]
pub struct Changes {
    items: Vec<Change>,
}

impl Model for Changes {
    ghost use Rattle.std.specs.Prelude.{List};
    ghost use Rattle.lc_model.specs.declared.change.Change.{Change};
    ghost use Rattle.lc_model.specs.Change.{InChangeOrder};

    ghost Value = { List Change };

    ghost view = { λ c. c.items.items };

    ghost invariant = { λ c. InChangeOrder c.items.items };
}

impl Changes {
    pub fn from_list(list: Vec<Change>) -> Result<Changes, NoMemory>
        requires { InChangeOrder list.items }
        ensures { IfOk result (λ changes. changes ≡ list.items) }
    {
        Ok(Changes { items: list })
    }

    /// These in a list, if they are strictly in order. Else the first place, counted from 0, whose item does not come
    /// after the one before it. Linear in the list.
    pub fn try_from_list(list: Vec<Change>) -> Result<Changes, usize>
        ensures same { IfOk result (λ same. same ≡ list.items) }
        ensures in_order { IsOk result ↔ InChangeOrder list.items }
        ensures disorder { result_err result ≡ first_disorder change_cmp list.items }
    {
        match first_disorder(list.as_slice()) {
            Some(place) => Err(place),
            None => Ok(Changes { items: list }),
        }
    }

    /// The seconds of the change from one stop to another, if there is one. Takes the logarithm of the changes.
    pub fn between(&self, from: &Id, to: &Id) -> Option<u32>
        ensures { result ≡ change_between self.now from.now to.now }
    {
        let changes = self.as_slice();
        match changes.binary_search_by(|c| c.from.cmp(from).then(c.to.cmp(to))) {
            Ok(place) => Some(changes[place].seconds),
            Err(_) => None,
        }
    }

    /// The changes from a stop, in their order. Takes the logarithm of the changes.
    pub fn from(&self, from: &Id) -> &[Change]
        ensures { result.now ≡ changes_from self.now from.now }
    {
        items_of(self.as_slice(), from)
    }

    pub fn as_slice(&self) -> &[Change]
        ensures value { result.now ≡ self.now }
        ensures in_order { InChangeOrder result.now }
    {
        self.items.as_slice()
    }
}

impl PlainData for Changes {
    fn copy(&self, alloc: Global) -> Result<Changes, NoMemory> {
        let items = copy_each(alloc, self.as_slice())?;
        Changes::from_list(items)
    }
}
