ghost use Rattle.std.specs.Prelude.{◌≡◌, ◌<◌, ◌≤◌, ◌++◌, ℕ, List, Ok, length, drop, IfOk, MatchResult};
ghost use Rattle.publisher.specs.Held.{side_of};
ghost use Rattle.lc_world.specs.Sides.Side.{Side};
ghost use Rattle.wire_session.specs.Stands.{HasAnswered, IsCutShort, IsWaiting};
ghost use Rattle.wire_session.specs.Steps.{IsAsFed, IsHeard, IsOpenWithin, IsStillOpen, KeepsFront};

use crate::Fed;
use crate::answering::answer_next;
use crate::next::Next;
use crate::replies::Replies;
use fragmenter::Fragmenter;
use http_text::HeadRoom;
use lc_model::NoMemory;
use publisher::Publisher;
use std::alloc::Global;

/// Answers the requests at the front of the bytes. It gives how many bytes these have, and nothing where the session has ended.
fn answer_all<G: Fragmenter + Drop>(
    alloc: Global,
    room: &mut HeadRoom,
    publisher: &mut Publisher<G>,
    replies: &mut Replies,
    bytes: &[u8],
) -> Result<Option<usize>, NoMemory>
    requires { replies.old.count < 100 }
    ensures left { (start : Side) (fed sent : List ℕ)
        → HasAnswered start fed (sent ++ replies.old.output) replies.old.count (side_of G.cuts_of publisher.old) bytes.now
        → MatchResult result
        (λ used. IsHeard used start fed (sent ++ replies.new.output) replies.new.count (side_of G.cuts_of publisher.new) bytes.now room.new.waits_for)
        (λ _. IsCutShort start fed (sent ++ replies.new.output) replies.new.count (side_of G.cuts_of publisher.new)) }
    ensures within { IfOk result (IsOpenWithin (length bytes.now) replies.new.count) }
    ensures keeps { KeepsFront replies.old.output replies.new.output }
    ensures cutting { publisher.new.cutting ≡ publisher.old.cutting }
{
    let mut at = 0;
    'requests: loop {
        match answer_next(alloc, room, publisher, replies, &bytes[at..])? {
            Next::Answered { length } => at += length,
            Next::Waits => return Ok(Some(at)),
            Next::Ends => return Ok(None),
        }
    }
}

/// Drops so many bytes at the front. Linear in those that are left.
fn drop_front(bytes: &mut Vec<u8>, count: usize)
    requires { count ≤ length bytes.old.items }
    ensures { bytes.new.items ≡ drop count bytes.old.items }
{
    if count > 0 {
        let left = bytes.len() - count;
        bytes.copy_within(count.., 0);
        bytes.truncate(left);
    }
}

/// Answers what a piece completes. Each byte of it is copied once, and those after the last whole request once more.
pub fn hear<G: Fragmenter + Drop>(
    alloc: Global,
    room: &mut HeadRoom,
    publisher: &mut Publisher<G>,
    replies: &mut Replies,
    input: &mut Vec<u8>,
    piece: &[u8],
) -> Result<Fed, NoMemory>
    requires { replies.old.count < 100 }
    ensures stands { (start : Side) (fed sent : List ℕ)
        → IsWaiting start fed (sent ++ replies.old.output) replies.old.count (side_of G.cuts_of publisher.old) input.old.items room.old.waits_for
        → MatchResult result
        (λ is. IsAsFed is start (fed ++ piece.now) (sent ++ replies.new.output) replies.new.count (side_of G.cuts_of publisher.new)
        input.new.items room.new.waits_for)
        (λ _. IsCutShort start (fed ++ piece.now) (sent ++ replies.new.output) replies.new.count (side_of G.cuts_of publisher.new)) }
    ensures fewer { IfOk result (IsStillOpen replies.new.count) }
    ensures keeps { KeepsFront replies.old.output replies.new.output }
    ensures cutting { publisher.new.cutting ≡ publisher.old.cutting }
{
    input.extend_from_slice(piece)?;
    if input.len() < room.waits_for() {
        return Ok(Fed::More);
    }
    match answer_all(alloc, room, publisher, replies, input.as_slice())? {
        Some(used) => {
            drop_front(input, used);
            Ok(Fed::More)
        }
        None => {
            input.clear();
            Ok(Fed::Ended)
        }
    }
}
