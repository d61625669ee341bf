ghost use Rattle.std.specs.Prelude.{◌≡◌, All, IfOk, IfSome, IsTrue, Ok};
ghost use Rattle.lc_model.specs.Stop.{HasStop};
ghost use Rattle.lc_model.specs.declared.change.Change.{Change as StatedChange};
ghost use Rattle.lc_model.specs.declared.stop.Stop.{Stop as StatedStop};
ghost use Rattle.page_json.specs.StopsReading.{AreParents, doc_of_bytes};

use crate::stops_guess::guessed_doc;
use crate::stops_writing::doc_text;
use lc_model::{Change, Changes, NoMemory, Stop, Stops, StopsDoc};
use std::alloc::Global;

/// More bytes than a writer needs beyond what it writes.
const ROOM_BEYOND: usize = 64;

/// The stops document whose text the bytes are, as `stops_text` writes it. None where they are no such text, and perhaps another
/// of a document. Linear in the bytes, with two binary searches for each change and one for each parent.
pub fn written_stops(alloc: Global, bytes: &[u8]) -> Result<Option<StopsDoc>, NoMemory>
    ensures { IfOk result (λ read. IfSome read (λ doc. doc_of_bytes bytes.now (Ok doc))) }
{
    let Some(guess) = guessed_doc(alloc, bytes)? else {
        return Ok(None);
    };
    let url = guess.url;
    let Some(doc) = doc_of(guess.stops, guess.changes) else {
        return Ok(None);
    };
    if is_text_of(alloc, url, &doc, bytes)? {
        Ok(Some(doc))
    } else {
        Ok(None)
    }
}

/// Whether the bytes are the text of a document that has this URL.
fn is_text_of(alloc: Global, url: &str, doc: &StopsDoc, bytes: &[u8]) -> Result<bool, NoMemory>
    ensures { IfOk result (λ same. IsTrue same → doc_of_bytes bytes.now (Ok doc.now)) }
{
    let room = bytes.len().saturating_add(ROOM_BEYOND);
    let text = doc_text(alloc, url, doc, room)?;
    Ok(text.as_slice() == bytes)
}

/// The document of these stops and changes, if both are in order and each parent and each end of a change is one of the stops.
fn doc_of(stops: Vec<Stop>, changes: Vec<Change>) -> Option<StopsDoc> {
    let stops = ordered_stops(stops)?;
    let changes = ordered_changes(changes)?;
    if names_its_stops(&stops, &changes) {
        Some(StopsDoc { stops, changes })
    } else {
        None
    }
}

/// Whether each parent and each end of a change is one of the stops.
fn names_its_stops(stops: &Stops, changes: &Changes) -> bool
    ensures parents { IsTrue result → AreParents stops.now }
    ensures from { IsTrue result → All (λ (c : StatedChange). HasStop stops.now c.from) changes.now }
    ensures to { IsTrue result → All (λ (c : StatedChange). HasStop stops.now c.to) changes.now }
{
    has_parents(stops, stops.as_slice()) && has_ends(stops, changes.as_slice())
}

fn ordered_stops(stops: Vec<Stop>) -> Option<Stops> {
    Stops::try_from_list(stops).ok()
}

fn ordered_changes(changes: Vec<Change>) -> Option<Changes> {
    Changes::try_from_list(changes).ok()
}

/// Whether each parent of these is one of the stops.
fn has_parents(stops: &Stops, children: &[Stop]) -> bool
    ensures { IsTrue result → All (λ (s : StatedStop). IfSome s.parent (HasStop stops.now)) children.now }
{
    for child in children {
        if !has_parent(stops, child) {
            return false;
        }
    }
    true
}

fn has_parent(stops: &Stops, child: &Stop) -> bool
    ensures { IsTrue result → IfSome child.now.parent (HasStop stops.now) }
{
    match &child.parent {
        Some(parent) => stops.has(parent),
        None => true,
    }
}

/// Whether each end of the changes is one of the stops.
fn has_ends(stops: &Stops, changes: &[Change]) -> bool
    ensures from { IsTrue result → All (λ (c : StatedChange). HasStop stops.now c.from) changes.now }
    ensures to { IsTrue result → All (λ (c : StatedChange). HasStop stops.now c.to) changes.now }
{
    for change in changes {
        if !stops.has(&change.from) || !stops.has(&change.to) {
            return false;
        }
    }
    true
}
