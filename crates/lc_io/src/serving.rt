ghost use Rattle.std.specs.Prelude.{◌≡◌, ◌<◌, ◌≤◌, [], false, length, IfErr, IfOk, IsErrOf, IsOkAnd, IsTrue, OnErr, OnOk};
ghost use Rattle.lc_io.specs.Counts.{HasCause};
ghost use Rattle.lc_io.specs.Serving.{Halts, IsServed, NothingToCome, Serves, Talks};
ghost use Rattle.lc_io.specs.declared.door.DoorFail.TheVariants.{Failed};

use crate::{Door, DoorFail, Talk};
use lc_model::NoMemory;
use std::alloc::Global;

/// How a connection was served.
#[derive(Clone, Copy, PartialEq, Eq)]
pub struct Served {
    /// How many requests were answered.
    pub requests: u32,
    /// Whether a read or a write failed.
    pub fault: bool,
}

/// The bytes that are read at once, at most.
const PIECE: usize = 65_536;

/// Sends all that is pending.
fn send_all<T: Talk, D: Door>(talk: &mut T, door: &mut D) -> Result<(), DoorFail>
    requires { IsTrue (D.seen door.old).connected }
    ensures talks { Talks T.stands T.says result talk.old talk.new (T.seen talk.new) (D.seen door.old).recorded (D.seen door.new).recorded }
    ensures all { OnOk result ((T.seen talk.new).pending ≡ []) }
    ensures same { T.seen talk.new ≡ record (T.seen talk.old) { pending = (T.seen talk.new).pending } }
    ensures broken { HasCause (D.seen door.old).broken (D.seen door.new).broken (IsErrOf result Failed) }
    ensures others { D.seen door.new ≡ record (D.seen door.old) { recorded = (D.seen door.new).recorded; broken = (D.seen door.new).broken } }
{
    'sending: while !talk.pending().is_empty() {
        let count = door.write(talk.pending())?;
        talk.sent(count);
    }
    Ok(())
}

/// Reads once, into the room of the piece, and feeds what it read to the talk. At the end of the input it says that no more comes.
fn hear<T: Talk, D: Door>(
    alloc: Global,
    talk: &mut T,
    door: &mut D,
    piece: &mut [u8],
) -> Result<bool, DoorFail>
    requires none_pending { (T.seen talk.old).pending ≡ [] }
    requires room { 0 < length piece.old }
    ensures talks { Talks T.stands T.says result talk.old talk.new (T.seen talk.new) (D.seen door.old).recorded (D.seen door.new).recorded }
    ensures fed { IfOk result (λ more. IsTrue more → (T.seen talk.new).ended ≡ false → (T.seen talk.old).count < (T.seen talk.new).count) }
    ensures ended { IfOk result (λ more. ¬ IsTrue more → NothingToCome (D.seen door.new).recorded × (T.seen talk.new ≡ T.seen talk.old)) }
    ensures broken { HasCause (D.seen door.old).broken (D.seen door.new).broken (IsErrOf result Failed) }
    ensures others { D.seen door.new ≡ record (D.seen door.old) { recorded = (D.seen door.new).recorded; broken = (D.seen door.new).broken } }
{
    let count = door.read(piece)?;
    if count == 0 {
        return Ok(false);
    }
    talk.feed_piece(alloc, &piece[..count])?;
    Ok(true)
}

/// Sends and reads in turn, until the input or the talk has ended and all is sent. What is read goes through the room of the piece.
fn converse<T: Talk, D: Door>(
    alloc: Global,
    talk: &mut T,
    door: &mut D,
    piece: &mut [u8],
) -> Result<(), DoorFail>
    requires connected { IsTrue (D.seen door.old).connected }
    requires room { 0 < length piece.old }
    ensures talks { Talks T.stands T.says result talk.old talk.new (T.seen talk.new) (D.seen door.old).recorded (D.seen door.new).recorded }
    ensures served { OnOk result (IsServed (T.seen talk.new) (D.seen door.new).recorded) }
    ensures broken { HasCause (D.seen door.old).broken (D.seen door.new).broken (IsErrOf result Failed) }
    ensures others { D.seen door.new ≡ record (D.seen door.old) { recorded = (D.seen door.new).recorded; broken = (D.seen door.new).broken } }
{
    'turns: loop {
        send_all(talk, door)?;
        if talk.ended() {
            return Ok(());
        }
        if !hear(alloc, talk, door, piece)? {
            return Ok(());
        }
    }
}

/// Makes the room for what is read, and sends and reads in turn.
fn converse_in_pieces<T: Talk, D: Door>(
    alloc: Global,
    talk: &mut T,
    door: &mut D,
) -> Result<(), DoorFail>
    requires { IsTrue (D.seen door.old).connected }
    ensures talks { Talks T.stands T.says result talk.old talk.new (T.seen talk.new) (D.seen door.old).recorded (D.seen door.new).recorded }
    ensures served { OnOk result (IsServed (T.seen talk.new) (D.seen door.new).recorded) }
    ensures broken { HasCause (D.seen door.old).broken (D.seen door.new).broken (IsErrOf result Failed) }
    ensures others { D.seen door.new ≡ record (D.seen door.old) { recorded = (D.seen door.new).recorded; broken = (D.seen door.new).broken } }
{
    let Ok(mut piece) = vec![in alloc; 0u8; PIECE] else {
        return Err(DoorFail::NoMemory);
    };
    converse(alloc, talk, door, &mut piece)
}

/// Serves the current connection: what is read from it is fed to the talk, and what the talk says is sent. All that is pending is sent before
/// anything more is read, in pieces of 64 KiB. It ends with the input, with the talk once all is sent, or where a read or a write fails.
pub fn serve_one<T: Talk, D: Door>(
    alloc: Global,
    talk: &mut T,
    door: &mut D,
) -> Result<Served, NoMemory>
    requires { IsTrue (D.seen door.old).connected }

    // What was read was fed to the talk, and what was sent is a front of what it says: all of it, where a read failed.
    ensures serves { IfOk result (λ served. Serves T.stands T.says served.fault talk.old talk.new (T.seen talk.new) (D.seen door.old).recorded (D.seen door.new).recorded) }

    // Without a fault all of it is sent, and the input or the talk has ended.
    ensures served { IfOk result (λ served. ¬ IsTrue served.fault → IsServed (T.seen talk.new) (D.seen door.new).recorded) }
    ensures requests { IfOk result (λ served. served.requests ≡ (T.seen talk.new).requests) }
    ensures out_of_memory { OnErr result (Halts T.stands T.says talk.old (D.seen door.old).recorded (D.seen door.new).recorded) }
    ensures broken { HasCause (D.seen door.old).broken (D.seen door.new).broken (IsOkAnd result (λ served. IsTrue served.fault)) }

    // The door listens as before, and the connection is not hung up.
    ensures others { D.seen door.new ≡ record (D.seen door.old) { recorded = (D.seen door.new).recorded; broken = (D.seen door.new).broken } }
{
    let fault = match converse_in_pieces(alloc, talk, door) {
        Ok(()) => false,
        Err(DoorFail::Failed) => true,
        Err(DoorFail::NoMemory) => return Err(NoMemory),
    };
    Ok(Served {
        requests: talk.requests(),
        fault,
    })
}
