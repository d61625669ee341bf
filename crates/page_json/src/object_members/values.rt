ghost use Rattle.std.specs.Prelude.{◌≡◌, ◌≤◌, IfOk, IfSome};
ghost use Rattle.lc_time.specs.Iso.{SaysMoment};
ghost use Rattle.serde_json.specs.Find.{as_str, get};
ghost use Rattle.page_json.specs.ObjectMembers.Members.{formed, needed, said_at};
ghost use Rattle.page_json.specs.ObjectMembers.Reading.{Meets, exactly};
ghost use Rattle.page_json.specs.ObjectMembers.Values.{as_id, as_seconds, id_from, id_if, seconds_from, text_if};
ghost use Rattle.page_json.specs.ObjectMembers.View.{view};

use crate::object_members::PageFault;
use crate::object_members::members::{bad_member, needed_text, no_member, or_bad, text_under};
use crate::object_members::tree::{member_at, text_in, u64_in};
use json::Value;
use lc_model::{Id, Moment, NoMemory, Text};
use lc_time::read_iso;
use std::alloc::Global;

/// The id of a member that is needed.
pub fn id_at(alloc: Global, value: &Value<'_>, key: &str) -> Result<Id, PageFault>
    ensures { Meets (exactly (needed as_id key.now (get key.now (view value.now)))) result }
{
    match member_at(value, key) {
        Some(member) => id_under(alloc, member, key),
        None => Err(no_member(alloc, key)),
    }
}

/// The id that a member is.
fn id_under(alloc: Global, member: &Value<'_>, key: &str) -> Result<Id, PageFault>
    ensures { Meets (exactly (formed key.now (as_id (view member.now)))) result }
{
    match text_in(member) {
        Some(text) => or_bad(alloc, id_from(alloc, text)?, key),
        None => Err(bad_member(alloc, key)),
    }
}

/// The id that is written so, or none where the text is empty.
fn id_from(alloc: Global, text: &str) -> Result<Option<Id>, NoMemory>
    ensures { IfOk result (λ id. id ≡ id_from text.now) }
{
    Id::new(alloc, text.as_bytes())
}

/// The text of a member, or the empty one where it is missing.
pub fn text_if_there(alloc: Global, value: &Value<'_>, key: &str) -> Result<Text, PageFault>
    ensures { Meets (exactly (text_if key.now (get key.now (view value.now)))) result }
{
    match member_at(value, key) {
        Some(member) => owned_text(alloc, member, key),
        None => Ok(Text::from_string(String::new(alloc))),
    }
}

/// The text that a member is.
fn owned_text(alloc: Global, member: &Value<'_>, key: &str) -> Result<Text, PageFault>
    ensures { Meets (exactly (formed key.now (as_str (view member.now)))) result }
{
    let text = text_under(alloc, member, key)?;
    Ok(Text::from_string(String::from_str(alloc, text)?))
}

/// The id of a member, if it is there.
pub fn id_if_there(alloc: Global, value: &Value<'_>, key: &str) -> Result<Option<Id>, PageFault>
    ensures { Meets (exactly (id_if key.now (get key.now (view value.now)))) result }
{
    match member_at(value, key) {
        Some(member) => Ok(Some(id_under(alloc, member, key)?)),
        None => Ok(None),
    }
}

/// Seconds that a member is, at least one.
pub fn seconds_at(alloc: Global, value: &Value<'_>, key: &str) -> Result<u32, PageFault>
    ensures said { Meets (exactly (needed as_seconds key.now (get key.now (view value.now)))) result }
    ensures positive { IfOk result (λ n. 1 ≤ n) }
{
    match member_at(value, key) {
        Some(member) => seconds_under(alloc, member, key),
        None => Err(no_member(alloc, key)),
    }
}

fn seconds_under(alloc: Global, member: &Value<'_>, key: &str) -> Result<u32, PageFault>
    ensures said { Meets (exactly (formed key.now (as_seconds (view member.now)))) result }
    ensures positive { IfOk result (λ n. 1 ≤ n) }
{
    match u64_in(member) {
        Some(seconds) => or_bad(alloc, seconds_from(seconds), key),
        None => Err(bad_member(alloc, key)),
    }
}

fn seconds_from(seconds: u64) -> Option<u32>
    ensures said { result ≡ seconds_from seconds }
    ensures positive { IfSome result (λ n. 1 ≤ n) }
{
    if 1 <= seconds && seconds < 1 << 32 {
        Some(seconds as u32)
    } else {
        None
    }
}

/// The moment that a member says.
pub fn moment_at(alloc: Global, value: &Value<'_>, key: &str) -> Result<Moment, PageFault>
    ensures { Meets (said_at SaysMoment key.now (view value.now)) result }
{
    let text = needed_text(alloc, value, key)?;
    or_bad(alloc, read_iso(text.as_bytes()), key)
}
