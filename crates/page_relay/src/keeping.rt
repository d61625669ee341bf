ghost use Rattle.std.specs.Prelude.{◌≡◌, ◌≢◌, ◌↔◌, ◌⊎◌, codes, IfOk, IsTrue, OnOk};
ghost use Rattle.http_text.specs.Request.{IsWhole};
ghost use Rattle.http_text.specs.declared.reply_fault.ReplyFault.TheVariants.{NoMemory as OutOfMemory};
ghost use Rattle.http_text.specs.declared.taken.Taken.TheVariants.{Whole as WholeRequest};
ghost use Rattle.page_relay.specs.Keeping.{IsKeepable, IsLastingPath, IsLastingReply, IsToKeep};

use connection_uri::{Base, behind};
use http_text::{HeadRoom, ReplyFault, Request, Taken, read_request};
use lc_model::NoMemory;
use std::alloc::Global;

/// The most bytes of a reply that is kept.
const MOST_BYTES: usize = 1_048_576;

/// Whether this reply to this request is kept. Linear in their heads.
pub(crate) fn is_to_keep(
    alloc: Global,
    room: &mut HeadRoom,
    base: &Base,
    request: &[u8],
    reply: &[u8],
) -> Result<bool, NoMemory>
    ensures { IfOk result (λ keep. IsTrue keep ↔ IsToKeep base.now request.now reply.now) }
{
    if !is_keepable(alloc, room, base, request)? {
        return Ok(false);
    }
    is_lasting(alloc, room, reply)
}

/// Whether the bytes are one whole GET of a document that never changes.
fn is_keepable(
    alloc: Global,
    room: &mut HeadRoom,
    base: &Base,
    request: &[u8],
) -> Result<bool, NoMemory>
    ensures { IfOk result (λ keepable. IsTrue keepable ↔ IsKeepable base.now request.now) }
{
    if !is_whole(room, request) {
        return Ok(false);
    }
    let said = read_request(alloc, request)?;
    Ok(asks_for_lasting(base, &said))
}

fn is_whole(room: &mut HeadRoom, bytes: &[u8]) -> bool
    ensures { IsTrue result ↔ IsWhole bytes.now }
{
    let taken = room.take_request(bytes);
    is_all(taken, bytes.len())
}

/// Whether it is a whole request of so many bytes that was taken.
fn is_all(taken: Taken, length: usize) -> bool
    ensures { IsTrue result ↔ (taken ≡ WholeRequest length) }
{
    taken == Taken::Whole { length }
}

fn asks_for_lasting(base: &Base, said: &Request) -> bool
    ensures { IsTrue result ↔ ((said.now.method ≡ codes "GET") × IsLastingPath base.now said.now.path) }
{
    is_get(said.method.as_slice()) && is_lasting_path(base, said.path.as_slice())
}

fn is_get(method: &[u8]) -> bool
    ensures { IsTrue result ↔ (method.now ≡ codes "GET") }
{
    method == b"GET".as_slice()
}

fn is_lasting_path(base: &Base, path: &[u8]) -> bool
    ensures { IsTrue result ↔ IsLastingPath base.now path.now }
{
    match behind(path, base.path().as_bytes()) {
        Some(tail) => is_lasting_tail(tail),
        None => false,
    }
}

fn is_lasting_tail(tail: &[u8]) -> bool
    ensures { IsTrue result ↔ ((tail.now ≡ codes "memento/connections") ⊎ (tail.now ≡ codes "stops")) }
{
    tail == b"memento/connections".as_slice() || tail == b"stops".as_slice()
}

/// Whether the bytes are a reply with the status 200 that is not too long.
fn is_lasting(alloc: Global, room: &mut HeadRoom, reply: &[u8]) -> Result<bool, NoMemory>
    ensures { IfOk result (λ lasting. IsTrue lasting ↔ IsLastingReply reply.now) }
{
    if reply.len() > MOST_BYTES {
        return Ok(false);
    }
    match room.read_reply(alloc, reply) {
        Ok(said) => Ok(said.status == 200),
        Err(fault) => not_lasting(fault),
    }
}

/// Bytes with a fault are no reply that is kept.
fn not_lasting(fault: ReplyFault) -> Result<bool, NoMemory>
    ensures not { IfOk result (λ lasting. ¬ (IsTrue lasting)) }
    ensures known { OnOk result (fault ≢ OutOfMemory) }
{
    match fault {
        ReplyFault::NoMemory => Err(NoMemory),
        _ => Ok(false),
    }
}
