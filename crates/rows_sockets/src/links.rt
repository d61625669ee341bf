//! Exchanges with the server.
use lc_edge::TcpLink;
use lc_model::NoMemory;
use lc_world::Link;
use rows_common::Draft;
use std::alloc::Global;

/// An exchange for each client that the server waits for: each has a connection of its own.
pub fn put_exchanges(rt: &HostRuntime, draft: &mut Draft, port: u16) {
    match authority_of(rt.alloc(), port) {
        Ok(authority) => put_replies(rt.alloc(), draft, &mut TcpLink::new(rt), authority.as_str()),
        Err(_) => draft.lose(),
    }
}

/// The authority of the loopback address at a port.
pub fn authority_of(alloc: Global, port: u16) -> Result<String, NoMemory> {
    Ok(format!(in alloc; "127.0.0.1:{port}")?)
}

fn put_replies<L: Link>(alloc: Global, draft: &mut Draft, link: &mut L, authority: &str) {
    draft.put("case: all of a request is given back\n");
    put_reply(alloc, draft, link, authority, b"hello");
    draft.put("case: a front of a request is given back, and the rest is not read\n");
    put_reply(alloc, draft, link, authority, b"hello, world");
    draft.put("case: the server says nothing\n");
    put_reply(alloc, draft, link, authority, b"hello");
    draft.put("case: a long request\n");
    put_long_reply(alloc, draft, link, authority);
    put_faults(draft, link.faults());
}

/// How often an exchange has failed.
pub fn put_faults(draft: &mut Draft, faults: u64) {
    draft.put("faults of the link: ");
    draft.put_shown(&faults);
    draft.put("\n");
}

fn put_reply<L: Link>(
    alloc: Global,
    draft: &mut Draft,
    link: &mut L,
    authority: &str,
    request: &[u8],
) {
    let mut reply = Vec::new(alloc);
    draft.need(reply.extend_from_slice(b"before"));
    draft.need(link.exchange(alloc, authority, request, &mut reply));
    draft.put("reply: ");
    draft.put_quoted(&reply);
    draft.put("\n");
}

fn put_long_reply<L: Link>(alloc: Global, draft: &mut Draft, link: &mut L, authority: &str) {
    let mut request = Vec::new(alloc);
    draft.need(request.resize(20_000, b'x'));
    let mut reply = Vec::new(alloc);
    draft.need(link.exchange(alloc, authority, &request, &mut reply));
    put_compared(draft, &request, &reply);
}

fn put_compared(draft: &mut Draft, request: &[u8], reply: &[u8]) {
    draft.put("bytes of the reply: ");
    draft.put_shown(&reply.len());
    draft.put("\nis the request: ");
    draft.put(if request == reply {
        "true\n"
    } else {
        "false\n"
    });
}
