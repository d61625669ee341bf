//! Doors and links that fail.
use crate::links::{authority_of, put_faults};
use lc_edge::{TcpDoor, TcpLink};
use lc_io::Door;
use lc_world::{Link, LinkFail};
use rows_common::Draft;
use std::alloc::Global;

/// A door at a port at which another one listens.
pub fn put_taken(rt: &HostRuntime, draft: &mut Draft, port: u16) {
    draft.put("case: a port that is taken\n");
    put_unopened(draft, &mut TcpDoor::new(rt), port);
}

fn put_unopened<D: Door>(draft: &mut Draft, door: &mut D, port: u16) {
    draft.put("door is opened: ");
    draft.put_is_read(door.listen(port));
    draft.put("faults of the door: ");
    draft.put_shown(&door.faults());
    draft.put("\nbroken: ");
    draft.put_shown(&door.broken());
    draft.put("\n");
}

/// A link to a port at which nobody listens any more.
pub fn put_nobody(rt: &HostRuntime, draft: &mut Draft, port: u16) {
    draft.put("case: nobody listens\n");
    match authority_of(rt.alloc(), port) {
        Ok(authority) => {
            put_unanswered(rt.alloc(), draft, &mut TcpLink::new(rt), authority.as_str());
        }
        Err(_) => draft.lose(),
    }
}

/// Texts that are no authorities.
pub fn put_no_authorities(rt: &HostRuntime, draft: &mut Draft) {
    draft.put("case: no authorities\n");
    let mut link = TcpLink::new(rt);
    put_each(rt.alloc(), draft, &mut link);
}

fn put_each<L: Link>(alloc: Global, draft: &mut Draft, link: &mut L) {
    put_unanswered(alloc, draft, link, "");
    put_unanswered(alloc, draft, link, ":80");
    put_unanswered(alloc, draft, link, "127.0.0.1:65536");
    put_unanswered(alloc, draft, link, "127.0.0.1:http");
    put_unanswered(alloc, draft, link, "[::1");
    put_unanswered(alloc, draft, link, "[localhost]:80");
}

/// An exchange that fails, what is left of the reply, and how often that has happened.
fn put_unanswered<L: Link>(alloc: Global, draft: &mut Draft, link: &mut L, authority: &str) {
    let mut reply = Vec::new(alloc);
    draft.need(reply.extend_from_slice(b"before"));
    let answer = link.exchange(alloc, authority, b"hello", &mut reply);
    draft.put(line_of(answer));
    draft.put_quoted(&reply);
    draft.put("\n");
    put_faults(draft, link.faults());
}

fn line_of(answer: Result<(), LinkFail>) -> &'static str {
    match answer {
        Ok(()) => "exchange: answered\nreply: ",
        Err(LinkFail::Failed) => "exchange: failed\nreply: ",
        Err(LinkFail::NoMemory) => "exchange: out of memory\nreply: ",
    }
}
