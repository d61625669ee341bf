ghost use Rattle.std.specs.Prelude.{◌≡◌, ◌+◌, ◌-◌, ◌<◌, ◌≤◌, ◌^◌, ◌⊎◌, ℕ, List, length, None, Some, Ok, Err, Option as Maybe, All, IfOk, IfErr};
ghost use Rattle.std.specs.Option.{option_copied};
ghost use Rattle.httparse.specs.Spans.{IsHeaderWithin};
ghost use Rattle.http_text.specs.declared.reply.Reply.{Reply as Said};
ghost use Rattle.http_text.specs.declared.reply_fault.ReplyFault.{ReplyFault as Fault};
ghost use Rattle.http_text.specs.declared.reply_fault.ReplyFault.TheVariants.{NoMemory as OutOfMemory};
ghost use Rattle.http_text.specs.Fields.{values_of};
ghost use Rattle.http_text.specs.Named.{texts_at};
ghost use Rattle.http_text.specs.Reply.{first_of, fault_of, open_fault, IsTextOf, IsMomentOf, SaysOf, IsReply, HasFault};

use crate::front::{HEAD_BYTES, front_of};
use crate::head::{MOST_FIELDS, has_field};
use crate::length::length_of;
use crate::named::{Values, values_named};
use crate::room::HeadRoom;
use crate::{Reply, ReplyFault};
use httparse::Status;
use httparse::spans::{HeaderSpan, ResponseSpans, parse_response};
use lc_model::{Moment, NoMemory, Text};
use lc_time::read_http_date;
use std::alloc::Global;

/// What a reply of these bytes says, or its first fault, with room made for its head. Takes time linear in the first
/// 16,384 bytes.
pub fn read_reply(alloc: Global, bytes: &[u8]) -> Result<Reply, ReplyFault>
    ensures said { IfOk result (IsReply bytes.now) }
    ensures only { (reply : Said) → IsReply bytes.now reply → (result ≡ Ok reply) ⊎ (result ≡ Err OutOfMemory) }
    ensures fault { IfErr result (λ fault. (fault ≡ OutOfMemory) ⊎ HasFault bytes.now fault) }
    ensures only_fault { (fault : Fault) → HasFault bytes.now fault
        → (result ≡ Err fault) ⊎ (result ≡ Err OutOfMemory) }
{
    let mut room = HeadRoom::new(alloc)?;
    room.read_reply(alloc, bytes)
}

/// What a reply of these bytes says, or its first fault.
pub fn reply_in(alloc: Global, room: &mut [HeaderSpan], bytes: &[u8]) -> Result<Reply, ReplyFault>
    requires { length room.old ≡ 5_500 }
    ensures said { IfOk result (IsReply bytes.now) }
    ensures only { (reply : Said) → IsReply bytes.now reply → (result ≡ Ok reply) ⊎ (result ≡ Err OutOfMemory) }
    ensures fault { IfErr result (λ fault. (fault ≡ OutOfMemory) ⊎ HasFault bytes.now fault) }
{
    let front = front_of(bytes);
    match parse_response(front, room) {
        Ok(Status::Complete(head)) => {
            reply_of(alloc, front, &room[..head.headers], head, bytes.len())
        }
        Ok(Status::Partial) => Err(open_fault(bytes.len())),
        Err(_) => Err(ReplyFault::Head),
    }
}

/// What a head says after which the rest of so many bytes follow, or its fault.
fn reply_of(
    alloc: Global,
    front: &[u8],
    fields: &[HeaderSpan],
    head: ResponseSpans,
    len: usize,
) -> Result<Reply, ReplyFault>
    requires fields { All (IsHeaderWithin (length front.now)) fields.now }
    requires len { head.len ≤ len }
    ensures said { IfOk result (λ reply. (fault_of (texts_at front.now fields.now) (len - head.len) ≡ None)
        × SaysOf head.code head.len (len - head.len) (texts_at front.now fields.now) reply) }
    ensures only { (reply : Said) → fault_of (texts_at front.now fields.now) (len - head.len) ≡ None
        → SaysOf head.code head.len (len - head.len) (texts_at front.now fields.now) reply
        → (result ≡ Ok reply) ⊎ (result ≡ Err OutOfMemory) }
    ensures fault { IfErr result (λ fault. (fault ≡ OutOfMemory)
        ⊎ (fault_of (texts_at front.now fields.now) (len - head.len) ≡ Some fault)) }
{
    let got = (len - head.len) as u64;
    match fault_of(front, fields, got) {
        Some(fault) => Err(fault),
        None => Ok(said(alloc, front, fields, head, got)?),
    }
}

/// What a head says that has no fault.
fn said(
    alloc: Global,
    front: &[u8],
    fields: &[HeaderSpan],
    head: ResponseSpans,
    got: u64,
) -> Result<Reply, NoMemory>
    requires fields { All (IsHeaderWithin (length front.now)) fields.now }
    requires len { head.len + got < 2 ^ 64 }
    requires faultless { fault_of (texts_at front.now fields.now) got ≡ None }
    ensures said { IfOk result (SaysOf head.code head.len got (texts_at front.now fields.now)) }
    ensures only { IfOk result (λ reply. (other : Said)
        → SaysOf head.code head.len got (texts_at front.now fields.now) other → reply ≡ other) }
{
    Ok(Reply {
        status: head.code,
        location: text_of(alloc, first_named(front, fields, b"location"))?,
        memento: moment_of(first_named(front, fields, b"memento-datetime")),
        body_from: head.len,
        body_to: head.len + length_of(front, fields).said_or(got) as usize,
    })
}

/// The fault of a head after which so many bytes follow, by the first test that it fails.
fn fault_of(front: &[u8], fields: &[HeaderSpan], got: u64) -> Option<ReplyFault>
    requires { All (IsHeaderWithin (length front.now)) fields.now }
    ensures { result ≡ fault_of (texts_at front.now fields.now) got }
{
    let length = length_of(front, fields);
    let wanted = length.said_or(got);
    if fields.len() > MOST_FIELDS {
        Some(ReplyFault::LongHead)
    } else if has_field(front, fields, b"transfer-encoding") {
        Some(ReplyFault::Chunked)
    } else if length.is_wrong() {
        Some(ReplyFault::BadLength)
    } else if got < wanted {
        Some(ReplyFault::Cut { wanted, got })
    } else {
        None
    }
}

/// The fault of so many bytes that end within their head.
fn open_fault(got: usize) -> ReplyFault
    ensures { result ≡ open_fault got }
{
    if got < HEAD_BYTES {
        ReplyFault::Head
    } else {
        ReplyFault::LongHead
    }
}

/// The value of the first field of this name.
fn first_named<'a>(bytes: &'a [u8], fields: &[HeaderSpan], name: &[u8]) -> Option<&'a [u8]>
    requires { All (IsHeaderWithin (length bytes.now)) fields.now }
    ensures { option_copied result ≡ first_of (values_of name.now (texts_at bytes.now fields.now)) }
{
    match values_named(bytes, fields, name) {
        Values::Absent => None,
        Values::One(value) => Some(value),
        Values::More(value) => Some(value),
    }
}

/// The value as a text, if it is there and UTF-8.
fn text_of(alloc: Global, value: Option<&[u8]>) -> Result<Option<Text>, NoMemory>
    ensures said { IfOk result (IsTextOf (option_copied value.entry)) }
    ensures only { IfOk result (λ text. (other : Maybe (List ℕ)) → IsTextOf (option_copied value.entry) other
        → text ≡ other) }
{
    let Some(value) = value else {
        return Ok(None);
    };
    match std::str::from_utf8(value) {
        Ok(text) => Ok(Some(Text::from_string(String::from_str(alloc, text)?))),
        Err(_) => Ok(None),
    }
}

/// The moment of the value's date, if it is there and a date.
fn moment_of(value: Option<&[u8]>) -> Option<Moment>
    ensures said { IsMomentOf (option_copied value.entry) result }
    ensures only { (other : Maybe ℕ) → IsMomentOf (option_copied value.entry) other → result ≡ other }
{
    match value {
        None => None,
        Some(value) => read_http_date(value),
    }
}
