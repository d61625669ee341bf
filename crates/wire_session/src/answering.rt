ghost use Rattle.std.specs.Prelude.{◌≡◌, ◌⊎◌, ◌+◌, ◌<◌, ◌≤◌, ◌++◌, ℕ, List, length, IfOk, MatchResult, OnErr, OnOk};
ghost use Rattle.http_text.specs.Request.{IsWhole, IsWholeRequest};
ghost use Rattle.http_text.specs.declared.request.Request.{Request as Said};
ghost use Rattle.publisher.specs.Held.{side_of};
ghost use Rattle.lc_world.specs.Sides.Reply.{IsNextSide};
ghost use Rattle.lc_world.specs.Sides.Side.{Side};
ghost use Rattle.wire_session.specs.Stands.{HasAnswered, IsCutShort};
ghost use Rattle.wire_session.specs.Steps.{Counts, IsLeft, IsReplied, IsWithin, KeepsFront};

use crate::next::{Next, next_after};
use crate::replies::{Replies, add_reply, refuse};
use fragmenter::Fragmenter;
use http_text::{HeadRoom, Taken, read_request};
use lc_model::NoMemory;
use publisher::Publisher;
use std::alloc::Global;

/// Whether a whole request closes the connection.
fn closes(alloc: Global, request: &[u8]) -> Result<bool, NoMemory>
    requires { IsWhole request.now }
    ensures { IfOk result (λ closes. (said : Said) × IsWholeRequest request.now said × (closes ≡ said.close)) }
{
    let said = read_request(alloc, request)?;
    Ok(said.close)
}

/// Answers a whole request, and says whether it closes the connection. Its head is read once more for that, since the publisher
/// gives the reply alone.
fn answer<G: Fragmenter + Drop>(
    alloc: Global,
    publisher: &mut Publisher<G>,
    replies: &mut Replies,
    request: &[u8],
) -> Result<bool, NoMemory>
    requires whole { IsWhole request.now }
    requires fewer { replies.old.count < 100 }
    ensures replied { IfOk result (λ closes. IsReplied (side_of G.cuts_of publisher.old) request.now replies.old.output
        (side_of G.cuts_of publisher.new) closes replies.new.output) }
    ensures count { OnOk result (replies.new.count ≡ replies.old.count + 1) }
    ensures unchanged { OnErr result (replies.new ≡ replies.old) }
    ensures left { OnErr result ((publisher.new ≡ publisher.old)
        ⊎ IsNextSide (side_of G.cuts_of publisher.old) request.now (side_of G.cuts_of publisher.new)) }
    ensures cutting { publisher.new.cutting ≡ publisher.old.cutting }
{
    let closes = closes(alloc, request)?;
    let reply = publisher.answer(alloc, request)?;
    add_reply(replies, reply)?;
    Ok(closes)
}

/// Answers what is at the front of the bytes. Linear in the first 16,384 of them, and in what the publisher takes.
pub fn answer_next<G: Fragmenter + Drop>(
    alloc: Global,
    room: &mut HeadRoom,
    publisher: &mut Publisher<G>,
    replies: &mut Replies,
    bytes: &[u8],
) -> Result<Next, NoMemory>
    requires { replies.old.count < 100 }
    ensures left { (start : Side) (fed sent : List ℕ)
        → HasAnswered start fed (sent ++ replies.old.output) replies.old.count (side_of G.cuts_of publisher.old) bytes.now
        → MatchResult result
        (λ next. IsLeft next start fed (sent ++ replies.new.output) replies.new.count (side_of G.cuts_of publisher.new) bytes.now room.new.waits_for)
        (λ _. IsCutShort start fed (sent ++ replies.new.output) replies.new.count (side_of G.cuts_of publisher.new)) }
    ensures within { IfOk result (IsWithin (length bytes.now)) }
    ensures counts { IfOk result (Counts replies.old.count replies.new.count) }
    ensures keeps { KeepsFront replies.old.output replies.new.output }
    ensures cutting { publisher.new.cutting ≡ publisher.old.cutting }
{
    match room.take_request(bytes) {
        Taken::NotYet => Ok(Next::Waits),
        Taken::Refused { status } => {
            refuse(alloc, replies, status)?;
            Ok(Next::Ends)
        }
        Taken::Whole { length } => {
            let closes = answer(alloc, publisher, replies, &bytes[..length])?;
            Ok(next_after(closes, replies.count, length))
        }
    }
}
