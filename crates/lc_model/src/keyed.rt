ghost use Rattle.std.specs.Prelude.{◌≡◌, ℕ, ◌↔◌, Any, IfOk, List, filter, map};
ghost use Rattle.std.specs.List.Sorted.{IsSorted};
ghost use Rattle.std.specs.Ordering.{on};
ghost use Rattle.lc_model.specs.Change.{is_same_id};
ghost use Rattle.lc_model.specs.Text.{id_cmp};

use crate::{Change, Id, NoMemory, Stop};
use std::alloc::Global;

/// What is looked up in a list by an id.
pub trait Keyed {
    ghost key: { Self → List ℕ };

    fn key(&self) -> &Id
        ensures { result.now ≡ key self.now };
}

impl Keyed for Stop {
    ghost key = { λ stop. stop.id };

    fn key(&self) -> &Id {
        &self.id
    }
}

/// By the stop that one leaves.
impl Keyed for Change {
    ghost key = { λ change. change.from };

    fn key(&self) -> &Id {
        &self.from
    }
}

/// The items of one key, in a list that is sorted by its keys. Takes the logarithm of the list.
pub fn items_of<'a, T: Keyed>(items: &'a [T], key: &Id) -> &'a [T]
    requires { IsSorted (on T.key id_cmp) items.now }
    ensures { result.now ≡ filter (λ x. is_same_id (T.key x) key.now) items.now }
{
    let first = items.partition_point(|item| item.key() < key);
    let end = items.partition_point(|item| item.key() <= key);
    &items[first..end]
}

/// The keys of the items, in their order.
pub fn keys_of<'a, T: Keyed>(alloc: Global, items: &'a [T]) -> Result<Vec<&'a [u8]>, NoMemory>
    ensures { IfOk result (λ keys. map (λ key. key.now) keys.items ≡ map T.key items.now) }
{
    let mut keys = Vec::with_capacity(alloc, items.len())?;
    'items: for item in items {
        keys.push(item.key().bytes())?;
    }
    Ok(keys)
}

/// The keys of the items, sorted, as `Id::is_among` asks.
pub fn sorted_keys<'a, T: Keyed>(alloc: Global, items: &'a [T]) -> Result<Vec<&'a [u8]>, NoMemory>
    ensures sorted { IfOk result (λ keys. IsSorted (on (λ key. key.now) id_cmp) keys.items) }
    ensures same { IfOk result (λ keys. (id : List ℕ) → Any (λ key. key.now ≡ id) keys.items ↔ Any (λ x. T.key x ≡ id) items.now) }
{
    let mut keys = keys_of(alloc, items)?;
    keys.sort()?;
    Ok(keys)
}
