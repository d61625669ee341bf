ghost use Rattle.std.specs.Prelude.{◌≡◌};

use crate::{NoMemory, PlainData, copy_each};
use std::alloc::Global;
use std::marker::Model;

/// Items in a list, in no order of their own. A contract sees the list.
#[derive(Drop)]
pub struct Items<T> {
    items: Vec<T>,
}

impl<T> Model for Items<T> {
    ghost use Rattle.std.specs.Prelude.{List};

    ghost Value = { List T };

    ghost view = { λ l. l.items.items };
}

impl<T> Items<T> {
    pub fn from_list(list: Vec<T>) -> Items<T>
        ensures { result ≡ list.items }
    {
        Items { items: list }
    }

    pub fn as_slice(&self) -> &[T]
        ensures { result.now ≡ self.now }
    {
        self.items.as_slice()
    }
}

impl<T: PlainData> PlainData for Items<T> {
    fn copy(&self, alloc: Global) -> Result<Items<T>, NoMemory> {
        let items = copy_each(alloc, self.as_slice())?;
        Ok(Items::from_list(items))
    }
}
