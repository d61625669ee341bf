ghost use Rattle.std.specs.Prelude.{◌≡◌, ◌++◌, All, codes, IfOk, OnOk};
ghost use Rattle.std.specs.Str.{IsUtf8};
ghost use Rattle.std.specs.String.{string_bytes};
ghost use Rattle.serde_json.specs.Data.{array};
ghost use Rattle.serde_json.specs.Written.{compact_text};
ghost use Rattle.page_json.specs.Sound.{IsSoundChange, IsSoundDoc, IsSoundStop};
ghost use Rattle.page_json.specs.StopsReading.{doc_of_bytes};
ghost use Rattle.page_json.specs.ObjectMembers.Tokens.{Appends, member_tokens, tokens_of};
ghost use Rattle.page_json.specs.ObjectMembers.MemberWriting.{items_from};
ghost use Rattle.page_json.specs.Tree.{change_tree, doc_tree, parent_at, stop_tree, stops_text_of};
ghost use Rattle.page_json.specs.Valid.{IsValidDoc};
ghost use Rattle.page_json.specs.StopsWriting.{closed_tokens, list_members};

use crate::object_members::write_text;
use crate::sound::{sound_change, sound_stop};
use connection_uri::Base;
use json::Writer;
use lc_model::{Change, Id, NoMemory, Stop, StopsDoc};
use std::alloc::Global;

/// About the bytes of a stops document's text beside its lists, and of a stop or a change in it.
const DOC_BYTES: usize = 256;

const ITEM_BYTES: usize = 64;

/// The text of the stops document: JSON without spaces, its members in the order of their bytes. It says that document.
/// Linear in the stops and the changes.
pub fn stops_text(alloc: Global, base: &Base, doc: &StopsDoc) -> Result<Vec<u8>, NoMemory>
    ensures text { IfOk result (λ text. text.items ≡ stops_text_of base.now doc.now) }
    ensures utf8 { IfOk result (λ text. IsUtf8 text.items) }
    ensures read { IfOk result (λ text. doc_of_bytes text.items (Ok doc.now)) }
    ensures sound { OnOk result (IsSoundDoc doc.now) }
{
    let url = doc_url(alloc, base)?;
    doc_text(alloc, url.as_str(), doc, text_room(doc))
}

/// The URL of the document.
fn doc_url(alloc: Global, base: &Base) -> Result<String, NoMemory>
    ensures { IfOk result (λ url. string_bytes url ≡ base.now.text ++ codes "stops") }
{
    let mut url = String::from_str(alloc, base.text())?;
    url.push_str("stops")?;
    Ok(url)
}

/// The text of a document that has this URL, for which room for so many bytes is made at once.
pub fn doc_text(alloc: Global, url: &str, doc: &StopsDoc, room: usize) -> Result<Vec<u8>, NoMemory>
    ensures text { IfOk result (λ text. text.items ≡ compact_text (doc_tree url.now doc.now)) }
    ensures utf8 { IfOk result (λ text. IsUtf8 text.items) }
    ensures read { IfOk result (λ text. doc_of_bytes text.items (Ok doc.now)) }
    ensures sound { OnOk result (IsSoundDoc doc.now) }
{
    let mut out = Writer::new(Vec::with_capacity(alloc, room)?);
    write_doc(&mut out, url, doc)?;
    Ok(out.into_inner())
}

/// About the bytes of the document's text.
fn text_room(doc: &StopsDoc) -> usize {
    let items = doc
        .stops
        .as_slice()
        .len()
        .saturating_add(doc.changes.as_slice().len());
    items.saturating_mul(ITEM_BYTES).saturating_add(DOC_BYTES)
}

fn write_doc(out: &mut Writer, url: &str, doc: &StopsDoc) -> Result<(), NoMemory>
    ensures tokens { OnOk result (Appends out.old out.new (tokens_of (doc_tree url.now doc.now))) }
    ensures sound { OnOk result (IsSoundDoc doc.now) }
    ensures valid { OnOk result (IsValidDoc doc.now) }
{
    out.begin_object()?;
    write_text(out, "@id", url)?;
    write_lists(out, doc.changes.as_slice(), doc.stops.as_slice())?;
    Ok(())
}

/// Writes the changes and the stops, and ends the object of their document.
fn write_lists(out: &mut Writer, changes: &[Change], stops: &[Stop]) -> Result<(), NoMemory>
    ensures tokens { OnOk result (Appends out.old out.new (closed_tokens (list_members changes.now stops.now))) }
    ensures changes { OnOk result (All IsSoundChange changes.now) }
    ensures stops { OnOk result (All IsSoundStop stops.now) }
{
    out.key("changes")?;
    write_changes(out, changes)?;
    out.key("stops")?;
    write_stops(out, stops)?;
    out.end_object()?;
    Ok(())
}

fn write_changes(out: &mut Writer, changes: &[Change]) -> Result<(), NoMemory>
    ensures tokens { OnOk result (Appends out.old out.new (tokens_of (array (items_from change_tree changes.now)))) }
    ensures sound { OnOk result (All IsSoundChange changes.now) }
{
    out.begin_array()?;
    for change in changes {
        write_change(out, change)?;
    }
    out.end_array()?;
    Ok(())
}

fn write_change(out: &mut Writer, change: &Change) -> Result<(), NoMemory>
    ensures tokens { OnOk result (Appends out.old out.new (tokens_of (change_tree change.now))) }
    ensures sound { OnOk result (IsSoundChange change.now) }
{
    sound_change(change);
    out.begin_object()?;
    write_text(out, "from", change.from.as_str())?;
    out.key("seconds")?;
    out.u64(u64::from(change.seconds))?;
    write_text(out, "to", change.to.as_str())?;
    out.end_object()?;
    Ok(())
}

fn write_stops(out: &mut Writer, stops: &[Stop]) -> Result<(), NoMemory>
    ensures tokens { OnOk result (Appends out.old out.new (tokens_of (array (items_from stop_tree stops.now)))) }
    ensures sound { OnOk result (All IsSoundStop stops.now) }
{
    out.begin_array()?;
    for stop in stops {
        write_stop(out, stop)?;
    }
    out.end_array()?;
    Ok(())
}

fn write_stop(out: &mut Writer, stop: &Stop) -> Result<(), NoMemory>
    ensures tokens { OnOk result (Appends out.old out.new (tokens_of (stop_tree stop.now))) }
    ensures sound { OnOk result (IsSoundStop stop.now) }
{
    sound_stop(stop);
    out.begin_object()?;
    write_text(out, "id", stop.id.as_str())?;
    write_text(out, "name", stop.name.as_str())?;
    write_parent(out, &stop.parent)?;
    out.end_object()?;
    Ok(())
}

fn write_parent(out: &mut Writer, parent: &Option<Id>) -> Result<(), NoMemory>
    ensures { OnOk result (Appends out.old out.new (member_tokens (parent_at parent.now))) }
{
    match parent {
        Some(parent) => write_text(out, "parent", parent.as_str()),
        None => Ok(()),
    }
}
