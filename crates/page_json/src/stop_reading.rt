ghost use Rattle.std.specs.Prelude.{◌≢◌, Ok, Err, IfOk, IfErr};
ghost use Rattle.page_json.specs.ObjectMembers.Reading.{Meets, each_in};
ghost use Rattle.page_json.specs.ObjectMembers.View.{items_view, view};
ghost use Rattle.page_json.specs.StopsReading.{stop_in};
ghost use Rattle.page_json.specs.declared.object_members.fault.PageFault.TheVariants.{NoMemory as OutOfMemory};

use crate::object_members::{PageFault, id_at, id_if_there, object_under, text_if_there};
use json::Value;
use lc_model::Stop;
use std::alloc::Global;

/// The stops of a list. Linear in the list.
pub fn each_stop(alloc: Global, values: &[Value<'_>]) -> Result<Vec<Stop>, PageFault>
    ensures ok { IfOk result (λ list. each_in stop_in (items_view values.now) (Ok list.items)) }
    ensures err { IfErr result
        (λ fault. fault ≢ OutOfMemory → each_in stop_in (items_view values.now) (Err fault)) }
{
    let mut stops = Vec::with_capacity(alloc, values.len())?;
    for value in values {
        stops.push(stop_in(alloc, value)?)?;
    }
    Ok(stops)
}

/// A stop.
fn stop_in(alloc: Global, value: &Value<'_>) -> Result<Stop, PageFault>
    ensures { Meets (stop_in (view value.now)) result }
{
    object_under(alloc, value, "stops")?;
    let id = id_at(alloc, value, "id")?;
    let name = text_if_there(alloc, value, "name")?;
    let parent = id_if_there(alloc, value, "parent")?;
    Ok(Stop { id, name, parent })
}
