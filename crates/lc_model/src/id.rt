ghost use Rattle.std.specs.Prelude.{◌≡◌, ◌↔◌, Any, IfOk, IsTrue, OnOk, SomeIff, nat_eq};
ghost use Rattle.std.specs.List.Sorted.{IsSorted};
ghost use Rattle.std.specs.Cmp.Lexicographic.{pointwise, slice_cmp, nat_list_eq_equiv, nat_list_cmp_total, texts_ties, texts_po};
ghost use Rattle.std.specs.Cmp.{partial_equiv_from_equiv};
ghost use Rattle.std.specs.Ordering.{nat_cmp, on};
ghost use Rattle.std.specs.Prelude.{Some, refl};
ghost use Rattle.lc_model.specs.Text.{IsIdText, id_cmp};

use crate::{NoMemory, PlainData};
use std::alloc::Global;
use std::cmp::Ordering;
use std::marker::Model;
use std::rc::RcStr;

/// The name of a stop, a trip or a service: a nonempty UTF-8 text. A contract sees its bytes.
///
/// Ids are ordered by their bytes. A copy shares the text.
#[derive(Drop)]
pub struct Id {
    text: RcStr,
}

impl Model for Id {
    ghost use Rattle.std.specs.Prelude.{ℕ, List, [], ◌≢◌};
    ghost use Rattle.std.specs.Rc.{rc_str_bytes};

    ghost Value = { List ℕ };

    ghost view = { λ id. rc_str_bytes id.text };

    ghost invariant = { λ id. rc_str_bytes id.text ≢ [] };
}

impl Id {
    /// The id that is written so, or none where the text is empty or not UTF-8.
    pub fn new(alloc: Global, text: &[u8]) -> Result<Option<Id>, NoMemory>
        ensures { IfOk result (λ id. SomeIff id (IsIdText text.now) text.now) }
    {
        match std::str::from_utf8(text) {
            Ok("") | Err(_) => Ok(None),
            Ok(text) => Ok(Some(Id {
                text: RcStr::from_str(alloc, text)?,
            })),
        }
    }

    pub fn bytes(&self) -> &[u8]
        ensures value { result.now ≡ self.now }
        ensures text { IsIdText result.now }
    {
        self.text.as_str().as_bytes()
    }

    pub fn as_str(&self) -> &str
        ensures value { result.now ≡ self.now }
        ensures text { IsIdText result.now }
    {
        self.text.as_str()
    }

    /// Whether the id is one of these, which are sorted. Takes the logarithm of their number.
    pub fn is_among(&self, sorted: &[&[u8]]) -> bool
        requires { IsSorted (on (λ x. x.now) id_cmp) sorted.now }
        ensures { IsTrue result ↔ Any (λ x. x.now ≡ self.now) sorted.now }
    {
        sorted.binary_search(&self.bytes()).is_ok()
    }
}

impl PlainData for Id {
    /// Shares the text: it takes no memory.
    fn copy(&self, _alloc: Global) -> Result<Id, NoMemory> {
        Ok(Id {
            text: self.text.clone()?,
        })
    }
}

impl PartialEq for Id {
    ghost eq = { pointwise nat_eq };

    ghost laws = { partial_equiv_from_equiv nat_list_eq_equiv };

    fn eq(&self, other: &Id) -> bool {
        self.bytes() == other.bytes()
    }
}

impl Eq for Id {
    ghost laws = { nat_list_eq_equiv };
}

impl PartialOrd for Id {
    ghost partial_cmp = { λ x y. Some (slice_cmp nat_cmp x y) };

    ghost laws = { texts_po };

    fn partial_cmp(&self, other: &Id) -> Option<Ordering> {
        Some(self.cmp(other))
    }
}

impl Ord for Id {
    ghost cmp = { slice_cmp nat_cmp };

    ghost total = { nat_list_cmp_total };

    ghost matches_partial_cmp = { λ x y. refl };

    ghost matches_eq = { texts_ties };

    fn cmp(&self, other: &Id) -> Ordering {
        self.bytes().cmp(other.bytes())
    }
}
