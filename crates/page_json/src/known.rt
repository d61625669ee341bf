ghost use Rattle.std.specs.Prelude.{◌≡◌, ℕ, ◌↔◌, Any, IfOk, IfSome, IsTrue, List};
ghost use Rattle.std.specs.List.Sorted.{IsSorted};
ghost use Rattle.std.specs.Ordering.{on};
ghost use Rattle.lc_model.specs.Stop.{HasStop};
ghost use Rattle.lc_model.specs.Text.{id_cmp};
ghost use Rattle.page_json.specs.StopsReading.{AreParents};

use lc_model::{NoMemory, Stop, sorted_keys};
use std::alloc::Global;

/// Whether each parent is one of the stops, in whatever order they are. Sorts their ids, and looks each parent up by
/// binary search.
pub fn have_parents(alloc: Global, stops: &[Stop]) -> Result<bool, NoMemory>
    ensures { IfOk result (λ all. IsTrue all ↔ AreParents stops.now) }
{
    let ids = sorted_keys(alloc, stops)?;
    Ok(stops.iter().all(|stop| has_parent(ids.as_slice(), stop)))
}

fn has_parent(ids: &[&[u8]], stop: &Stop) -> bool
    requires { IsSorted (on (λ x. x.now) id_cmp) ids.now }
    ensures { IsTrue result ↔ IfSome stop.now.parent (λ parent. Any (λ x. x.now ≡ parent) ids.now) }
{
    match &stop.parent {
        Some(parent) => parent.is_among(ids),
        None => true,
    }
}
