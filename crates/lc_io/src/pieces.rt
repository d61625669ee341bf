ghost use Rattle.std.specs.Prelude.{◌≡◌};
ghost use Rattle.lc_io.specs.Pieces.{NoneIsEmpty};

use lc_model::{Bytes, NoMemory, PlainData, copy_each};
use std::alloc::Global;
use std::marker::Model;

/// The bytes that come on one connection, in the pieces in which they come. No piece is empty.
#[derive(Drop)]
pub struct Pieces {
    items: Vec<Bytes>,
}

impl Model for Pieces {
    ghost use Rattle.std.specs.Prelude.{ℕ, List};
    ghost use Rattle.lc_io.specs.Pieces.{NoneIsEmpty};

    ghost Value = { List (List ℕ) };

    ghost view = { λ p. p.items.items };

    ghost invariant = { λ p. NoneIsEmpty p.items.items };
}

impl Pieces {
    pub fn from_list(list: Vec<Bytes>) -> Pieces
        requires { NoneIsEmpty list.items }
        ensures { result ≡ list.items }
    {
        Pieces { items: list }
    }

    /// The pieces, in their order.
    pub(crate) fn into_list(self) -> Vec<Bytes>
        ensures pieces { result.items ≡ self }
        ensures none_is_empty { NoneIsEmpty self }
    {
        self.items
    }

    pub fn as_slice(&self) -> &[Bytes]
        ensures { result.now ≡ self.now }
    {
        self.items.as_slice()
    }
}

impl PlainData for Pieces {
    fn copy(&self, alloc: Global) -> Result<Pieces, NoMemory> {
        Ok(Pieces {
            items: copy_each(alloc, &self.items)?,
        })
    }
}
