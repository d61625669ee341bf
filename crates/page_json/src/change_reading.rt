ghost use Rattle.std.specs.Prelude.{◌≢◌, All, Ok, Err, IfOk, IfErr};
ghost use Rattle.lc_model.specs.Stop.{HasStop};
ghost use Rattle.lc_model.specs.declared.change.Change.{Change as Stated};
ghost use Rattle.page_json.specs.ObjectMembers.Reading.{Meets, each_in};
ghost use Rattle.page_json.specs.ObjectMembers.View.{items_view, view};
ghost use Rattle.page_json.specs.StopsReading.{change_in, if_stop, stop_at};
ghost use Rattle.page_json.specs.declared.object_members.fault.PageFault.TheVariants.{NoMemory as OutOfMemory};

use crate::object_members::{PageFault, bad_member, id_at, object_under, seconds_at};
use json::Value;
use lc_model::{Change, Id, Stops};
use std::alloc::Global;

/// The changes of a list. Looks each end up by binary search.
pub fn each_change(
    alloc: Global,
    stops: &Stops,
    values: &[Value<'_>],
) -> Result<Vec<Change>, PageFault>
    ensures ok { IfOk result (λ list. each_in (change_in stops.now) (items_view values.now) (Ok list.items)) }
    ensures err { IfErr result
        (λ fault. fault ≢ OutOfMemory → each_in (change_in stops.now) (items_view values.now) (Err fault)) }
    ensures from { IfOk result (λ list. All (λ (c : Stated). HasStop stops.now c.from) list.items) }
    ensures to { IfOk result (λ list. All (λ (c : Stated). HasStop stops.now c.to) list.items) }
{
    let mut changes = Vec::with_capacity(alloc, values.len())?;
    for value in values {
        changes.push(change_in(alloc, stops, value)?)?;
    }
    Ok(changes)
}

/// A change.
fn change_in(alloc: Global, stops: &Stops, value: &Value<'_>) -> Result<Change, PageFault>
    ensures said { Meets (change_in stops.now (view value.now)) result }
    ensures from { IfOk result (λ c. HasStop stops.now c.from) }
    ensures to { IfOk result (λ c. HasStop stops.now c.to) }
{
    object_under(alloc, value, "changes")?;
    let from = stop_at(alloc, stops, value, "from")?;
    let seconds = seconds_at(alloc, value, "seconds")?;
    let to = stop_at(alloc, stops, value, "to")?;
    Ok(Change { from, to, seconds })
}

/// The stop of the list that a member names.
fn stop_at(alloc: Global, stops: &Stops, value: &Value<'_>, key: &str) -> Result<Id, PageFault>
    ensures said { Meets (stop_at stops.now key.now (view value.now)) result }
    ensures known { IfOk result (HasStop stops.now) }
{
    let id = id_at(alloc, value, key)?;
    if_stop(alloc, stops, id, key)
}

/// The id, if it is that of a stop of the list.
fn if_stop(alloc: Global, stops: &Stops, id: Id, key: &str) -> Result<Id, PageFault>
    ensures said { Meets (if_stop stops.now key.now id) result }
    ensures known { IfOk result (HasStop stops.now) }
{
    if stops.has(&id) {
        Ok(id)
    } else {
        Err(bad_member(alloc, key))
    }
}
