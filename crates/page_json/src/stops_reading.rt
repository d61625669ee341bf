ghost use Rattle.std.specs.Prelude.{◌≡◌, ◌≢◌, All, codes, IfOk, IfErr, OnOk};
ghost use Rattle.std.specs.Ordering.{on};
ghost use Rattle.lc_model.specs.Change.{change_cmp};
ghost use Rattle.lc_model.specs.Stop.{HasStop};
ghost use Rattle.lc_model.specs.Text.{id_cmp};
ghost use Rattle.lc_model.specs.declared.change.Change.{Change as StatedChange};
ghost use Rattle.lc_model.specs.declared.stop.Stop.{Stop as StatedStop};
ghost use Rattle.lc_model.specs.declared.doc.StopsDoc.{StopsDoc as Stated};
ghost use Rattle.lc_model.specs.Disorder.{first_disorder};
ghost use Rattle.page_json.specs.ObjectMembers.Disorder.{unless_disorder};
ghost use Rattle.page_json.specs.ObjectMembers.Reading.{Meets, exactly, gives};
ghost use Rattle.page_json.specs.ObjectMembers.View.{view};
ghost use Rattle.page_json.specs.StopsReading.{AreParents, changes_in, doc_in, doc_of_bytes, stops_in};
ghost use Rattle.page_json.specs.Valid.{IsValidDoc};
ghost use Rattle.page_json.specs.declared.object_members.fault.PageFault.TheVariants.{BadMember as bad, NoMemory as OutOfMemory};

use crate::change_reading::each_change;
use crate::known::have_parents;
use crate::object_members::{PageFault, bad_member, json_in, needed_list, object_under};
use crate::stop_reading::each_stop;
use crate::written_stops::written_stops;
use json::{Scratch, Value};
use lc_model::{Change, Changes, Stop, Stops, StopsDoc};
use std::alloc::Global;

/// The stops document that a text of JSON says, or the first fault of the text: first of its stops, then of its changes.
/// Linear in the text, with two binary searches for each change and one for each parent; a text that others wrote takes a sort of
/// the stops too. What `stops_text` wrote is read by a guess that is written again.
pub fn read_stops(alloc: Global, bytes: &[u8]) -> Result<StopsDoc, PageFault>
    ensures said { Meets (doc_of_bytes bytes.now) result }
    ensures valid { IfOk result IsValidDoc }

    // Where the bytes say a document, as those of `stops_text` do, that document is read.
    ensures exact { (doc : Stated) → doc_of_bytes bytes.now (Ok doc) → Meets (gives doc) result }
{
    match written_stops(alloc, bytes)? {
        Some(doc) => Ok(doc),
        None => read_tree(alloc, bytes),
    }
}

/// The stops document that a text of JSON says, whoever wrote it, or the first fault of the text.
fn read_tree(alloc: Global, bytes: &[u8]) -> Result<StopsDoc, PageFault>
    ensures { Meets (doc_of_bytes bytes.now) result }
{
    let mut scratch = Scratch::new(alloc);
    let value = json_in(alloc, bytes, &mut scratch)?;
    doc_in(alloc, &value)
}

fn doc_in(alloc: Global, value: &Value<'_>) -> Result<StopsDoc, PageFault>
    ensures { Meets (doc_in (view value.now)) result }
{
    object_under(alloc, value, "stops")?;
    let stops = stops_in(alloc, value)?;
    let changes = changes_in(alloc, &stops, value)?;
    Ok(StopsDoc { stops, changes })
}

/// The stops, each of whose parents is one of them.
fn stops_in(alloc: Global, value: &Value<'_>) -> Result<Stops, PageFault>
    ensures said { Meets (stops_in (view value.now)) result }
    ensures parents { IfOk result AreParents }
{
    let items = needed_list(alloc, value, "stops")?;
    let stops = each_stop(alloc, items)?;
    with_parents(alloc, stops.as_slice())?;
    ordered_stops(stops)
}

/// That each parent is one of the stops.
fn with_parents(alloc: Global, stops: &[Stop]) -> Result<(), PageFault>
    ensures ok { OnOk result (AreParents stops.now) }
    ensures err { IfErr result
        (λ fault. fault ≢ OutOfMemory → (fault ≡ bad (codes "parent")) × (AreParents stops.now → ⊥)) }
{
    if have_parents(alloc, stops)? {
        Ok(())
    } else {
        Err(bad_member(alloc, "parent"))
    }
}

/// The stops, unless they are not in order.
fn ordered_stops(stops: Vec<Stop>) -> Result<Stops, PageFault>
    ensures said { Meets (exactly
        (unless_disorder (first_disorder (on (λ (s : StatedStop). s.id) id_cmp) stops.items) stops.items)) result }
    ensures same { IfOk result (λ same. same ≡ stops.items) }
{
    match Stops::try_from_list(stops) {
        Ok(stops) => Ok(stops),
        Err(place) => Err(PageFault::NotOrdered { place }),
    }
}

/// The changes, each of whose ends is one of the stops.
fn changes_in(alloc: Global, stops: &Stops, value: &Value<'_>) -> Result<Changes, PageFault>
    ensures said { Meets (changes_in stops.now (view value.now)) result }
    ensures from { IfOk result (All (λ (c : StatedChange). HasStop stops.now c.from)) }
    ensures to { IfOk result (All (λ (c : StatedChange). HasStop stops.now c.to)) }
{
    let items = needed_list(alloc, value, "changes")?;
    let changes = each_change(alloc, stops, items)?;
    ordered_changes(changes)
}

/// The changes, unless they are not in order.
fn ordered_changes(changes: Vec<Change>) -> Result<Changes, PageFault>
    ensures said { Meets (exactly (unless_disorder (first_disorder change_cmp changes.items) changes.items)) result }
    ensures same { IfOk result (λ same. same ≡ changes.items) }
{
    match Changes::try_from_list(changes) {
        Ok(changes) => Ok(changes),
        Err(place) => Err(PageFault::NotOrdered { place }),
    }
}
