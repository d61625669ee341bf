//! What links answer: to a publisher of the program, over failures, at home, and to nobody.
use crate::making::{AT_FIRST, bytes, publisher};
use fragmenter::Cutting;
use lc_links::{ClosedLink, FaultyLink, HomeLink, LocalLink};
use lc_world::{Link, LinkFail, ListLink, RecordedReply};
use rows_common::{Draft, Unmade};
use std::alloc::Global;

const STOPS: &[u8] = b"GET /stops HTTP/1.1\r\nHost: lc.example\r\n\r\n";

const NOTHING: &[u8] = b"GET / HTTP/1.1\r\nHost: lc.example\r\n\r\n";

const POSTED: &[u8] = b"POST /connections HTTP/1.1\r\nHost: lc.example\r\n\r\n";

const NOT_WHOLE: &[u8] = b"GET /stops HTTP/1.1\r\nHost: lc.example\r\n";

const NOT_FOUND: &str = "HTTP/1.1 404 Not Found\r\nContent-Length: 0\r\n\r\n";

/// The lines of the links, each of which leaves its replies at one place.
pub(super) fn put_links(alloc: Global, draft: &mut Draft) {
    let mut reply = Vec::new(alloc);
    put_local(alloc, draft, &mut reply);
    put_faulty(alloc, draft, &mut reply);
    put_home(alloc, draft, &mut reply);
    put_closed(alloc, draft, &mut reply);
}

/// A link to a publisher of an empty timetable.
fn local(alloc: Global) -> Result<LocalLink<Cutting>, Unmade> {
    let publisher = publisher(alloc, &AT_FIRST)?;
    Ok(LocalLink::new(alloc, publisher)?)
}

/// The first line of a reply.
fn status(reply: &[u8]) -> &[u8] {
    reply.split(|byte| *byte == b'\r').next().unwrap_or(b"")
}

fn word(outcome: Result<(), LinkFail>) -> &'static str {
    match outcome {
        Ok(()) => ": answered ",
        Err(LinkFail::Failed) => ": failed ",
        Err(LinkFail::NoMemory) => ": no memory ",
    }
}

/// Whether a link answered, the first line of what it left, and its count of faults.
fn put_outcome(
    draft: &mut Draft,
    name: &str,
    outcome: Result<(), LinkFail>,
    reply: &[u8],
    faults: u64,
) {
    draft.put(name);
    draft.put(word(outcome));
    draft.put_quoted(status(reply));
    draft.put(" faults ");
    draft.put_shown(&faults);
    draft.put("\n");
}

/// The line of an exchange.
fn put_exchange<L: Link>(
    alloc: Global,
    draft: &mut Draft,
    name: &str,
    link: &mut L,
    request: &[u8],
    reply: &mut Vec<u8>,
) {
    let outcome = link.exchange(alloc, "lc.example", request, reply);
    put_outcome(draft, name, outcome, reply.as_slice(), link.faults());
}

/// The line of an answer that is handed on.
fn put_pass<L: Link>(
    alloc: Global,
    draft: &mut Draft,
    name: &str,
    link: &mut L,
    reply: &mut Vec<u8>,
) {
    let outcome = link.pass(alloc, "lc.example", STOPS, reply);
    put_outcome(draft, name, outcome, reply.as_slice(), link.faults());
}

static ASKED: [(&str, &[u8]); 4] = [
    ("local stops", STOPS),
    ("local nothing", NOTHING),
    ("local posted", POSTED),
    ("local not whole", NOT_WHOLE),
];

/// What an in-process publisher answers, and what the link records.
fn put_local(alloc: Global, draft: &mut Draft, reply: &mut Vec<u8>) {
    match local(alloc) {
        Ok(mut link) => put_local_of(alloc, draft, &mut link, reply),
        Err(Unmade) => draft.lose(),
    }
}

fn put_local_of(
    alloc: Global,
    draft: &mut Draft,
    link: &mut LocalLink<Cutting>,
    reply: &mut Vec<u8>,
) {
    for &(name, request) in &ASKED {
        put_exchange(alloc, draft, name, link, request, reply);
    }
    put_pass(alloc, draft, "local handed on", link, reply);
    put_local_state(draft, link);
}

/// The newest version of the publisher, how many exchanges were asked for and recorded, and the faults.
fn put_local_state(draft: &mut Draft, link: &mut LocalLink<Cutting>) {
    let newest = link.publisher().newest();
    draft.put("local link: newest ");
    draft.put_shown(&newest.seconds());
    draft.put(" asked ");
    draft.put_shown(&link.asked());
    draft.put(" recorded ");
    draft.put_shown(&link.recorded().len());
    draft.put(" faults ");
    draft.put_shown(&link.faults());
    draft.put("\n");
}

/// A link that has this one reply.
fn one_reply(alloc: Global, reply: &str) -> Result<ListLink, Unmade> {
    let reply = bytes(alloc, reply)?;
    let replies = vec![in alloc; reply]?;
    Ok(ListLink::new(replies)?)
}

/// The second call and the fourth one fail, and so does one that the other link fails.
fn faulty(alloc: Global) -> Result<FaultyLink<ListLink>, Unmade> {
    let fails = vec![in alloc; 2, 4]?;
    let inner = one_reply(alloc, "one")?;
    Ok(FaultyLink::new(inner, fails))
}

fn put_faulty(alloc: Global, draft: &mut Draft, reply: &mut Vec<u8>) {
    match faulty(alloc) {
        Ok(mut link) => put_faulty_of(alloc, draft, &mut link, reply),
        Err(Unmade) => draft.lose(),
    }
}

fn put_faulty_of(
    alloc: Global,
    draft: &mut Draft,
    link: &mut FaultyLink<ListLink>,
    reply: &mut Vec<u8>,
) {
    put_exchange(alloc, draft, "faulty first", link, STOPS, reply);
    put_pass(alloc, draft, "faulty second, handed on", link, reply);
    put_exchange(alloc, draft, "faulty third", link, STOPS, reply);
    put_exchange(alloc, draft, "faulty fourth", link, STOPS, reply);
}

/// The outer link has one reply, which comes in place of the first answer; the second answer stays, and is recorded.
fn put_home(alloc: Global, draft: &mut Draft, reply: &mut Vec<u8>) {
    match home(alloc) {
        Ok(link) => put_home_of(alloc, draft, link, reply),
        Err(Unmade) => draft.lose(),
    }
}

fn home(alloc: Global) -> Result<HomeLink<Cutting, ListLink>, Unmade> {
    let outer = one_reply(alloc, NOT_FOUND)?;
    let local = local(alloc)?;
    Ok(HomeLink::new(local, outer))
}

fn put_home_of(
    alloc: Global,
    draft: &mut Draft,
    mut link: HomeLink<Cutting, ListLink>,
    reply: &mut Vec<u8>,
) {
    put_home_exchanges(alloc, draft, &mut link, reply);
    let outer = link.into_outer();
    put_recorded(draft, &outer, reply.as_slice());
}

fn put_home_exchanges(
    alloc: Global,
    draft: &mut Draft,
    link: &mut HomeLink<Cutting, ListLink>,
    reply: &mut Vec<u8>,
) {
    put_exchange(alloc, draft, "home first", link, STOPS, reply);
    put_exchange(alloc, draft, "home second", link, STOPS, reply);
    let newest = link.publisher().newest();
    draft.put("home link: newest ");
    draft.put_shown(&newest.seconds());
    draft.put("\n");
}

/// How many exchanges the outer link records, and whether the last of them has this reply.
fn put_recorded(draft: &mut Draft, outer: &ListLink, reply: &[u8]) {
    let Some(entry) = outer.recorded().last() else {
        return draft.lose();
    };
    draft.put("home link: recorded ");
    draft.put_shown(&outer.recorded().len());
    draft.put(" the last as it stayed ");
    draft.put_shown(&is_recorded(&entry.reply, reply));
    draft.put("\n");
}

fn is_recorded(recorded: &RecordedReply, reply: &[u8]) -> bool {
    match recorded {
        RecordedReply::Reply(recorded) => recorded.as_slice() == reply,
        _ => false,
    }
}

/// A link to nobody leaves an answer as it is, and answers nothing.
fn put_closed(alloc: Global, draft: &mut Draft, reply: &mut Vec<u8>) {
    match closed(alloc) {
        Ok(link) => put_closed_of(alloc, draft, link, reply),
        Err(Unmade) => draft.lose(),
    }
}

fn closed(alloc: Global) -> Result<HomeLink<Cutting, ClosedLink>, Unmade> {
    let local = local(alloc)?;
    Ok(HomeLink::new(local, ClosedLink::new()))
}

fn put_closed_of(
    alloc: Global,
    draft: &mut Draft,
    mut link: HomeLink<Cutting, ClosedLink>,
    reply: &mut Vec<u8>,
) {
    put_exchange(alloc, draft, "home over nobody", &mut link, STOPS, reply);
    let mut outer = link.into_outer();
    put_nobody(alloc, draft, &mut outer, reply);
}

fn put_nobody(alloc: Global, draft: &mut Draft, link: &mut ClosedLink, reply: &mut Vec<u8>) {
    put_exchange(alloc, draft, "nobody", link, STOPS, reply);
}
