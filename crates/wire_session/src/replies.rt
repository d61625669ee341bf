ghost use Rattle.std.specs.Prelude.{◌≡◌, ◌+◌, ◌<◌, ◌++◌, true, OnErr, OnOk};
ghost use Rattle.http_text.specs.ReplyText.{HasReason};
ghost use Rattle.lc_world.specs.Sides.Reply.{bare_parts};
ghost use Rattle.wire_session.specs.SessionOut.{refusal_text};

use crate::output::Output;
use http_text::{ReplyParts, reply_text};
use lc_model::{Bytes, NoMemory};
use std::alloc::Global;

/// The replies of a session: those bytes of them that are to be sent, and their number.
#[derive(Drop)]
pub struct Replies {
    pub output: Output,
    pub count: u32,
}

/// Adds a reply.
pub fn add_reply(replies: &mut Replies, reply: Vec<u8>) -> Result<(), NoMemory>
    requires { replies.old.count < 100 }
    ensures output { OnOk result (replies.new.output ≡ replies.old.output ++ reply.items) }
    ensures count { OnOk result (replies.new.count ≡ replies.old.count + 1) }
    ensures unchanged { OnErr result (replies.new ≡ replies.old) }
{
    replies.output.add(reply)?;
    replies.count += 1;
    Ok(())
}

/// A status and nothing else, after which the connection ends.
fn refusal_parts(alloc: Global, status: u16) -> ReplyParts
    ensures { result ≡ bare_parts true status }
{
    ReplyParts {
        status,
        kind: None,
        length: if status == 204 { None } else { Some(0) },
        location: None,
        memento: None,
        original: None,
        allow: None,
        close: true,
        body: Bytes::from_list(Vec::new(alloc)),
    }
}

/// Adds the reply to a head that is refused with this status.
pub fn refuse(alloc: Global, replies: &mut Replies, status: u16) -> Result<(), NoMemory>
    requires reason { HasReason status }
    requires fewer { replies.old.count < 100 }
    ensures output { OnOk result (replies.new.output ≡ replies.old.output ++ refusal_text status) }
    ensures count { OnOk result (replies.new.count ≡ replies.old.count + 1) }
    ensures unchanged { OnErr result (replies.new ≡ replies.old) }
{
    let reply = reply_text(alloc, &refusal_parts(alloc, status))?;
    add_reply(replies, reply)
}
