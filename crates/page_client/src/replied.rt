ghost use Rattle.std.specs.Prelude.{◌≡◌, IfOk};
ghost use Rattle.http_text.specs.Reply.{IsReply};
ghost use Rattle.page_client.specs.Replied.{IsAnswered, body_of};

use crate::PeerFault;
use http_text::{Reply, ReplyFault, read_reply};
use lc_model::NoMemory;
use std::alloc::Global;

/// What the bytes say as a reply of this status, or the first test of these that they fail.
pub fn replied(
    alloc: Global,
    bytes: &[u8],
    status: u16,
) -> Result<Result<Reply, PeerFault>, NoMemory>
    ensures { IfOk result (IsAnswered bytes.now status) }
{
    match read_reply(alloc, bytes) {
        Ok(reply) if reply.status == status => Ok(Ok(reply)),
        Ok(reply) => Ok(Err(PeerFault::Status { got: reply.status })),
        Err(ReplyFault::NoMemory) => Err(NoMemory),
        Err(fault) => Ok(Err(PeerFault::Reply(fault))),
    }
}

/// The body of a reply.
pub fn body_of<'a>(bytes: &'a [u8], reply: &Reply) -> &'a [u8]
    requires { IsReply bytes.now reply.now }
    ensures { result.now ≡ body_of bytes.now reply.now }
{
    &bytes[reply.body_from..reply.body_to]
}
