//! Clients over relays: one that keeps all, one that keeps a single reply, one whose link fails at first, and one over another.
mod asking;
mod clients;
mod relaying;
mod replies;

use crate::making::{ADDRESS, begun};
use crate::publishing::link;
use crate::said::put_named;
use asking::POST_D60;
use clients::put_client;
use fragmenter::Cutting;
use lc_links::{FaultyLink, LocalLink};
use lc_world::Link;
use page_relay::Relay;
use relaying::{over_tiny, relay};
use rows_common::{Draft, Unmade};
use std::alloc::Global;

/// Clients over relays, and single requests.
pub(crate) fn put_relays(alloc: Global, draft: &mut Draft) {
    put_entries(alloc, draft, 100);
    put_entries(alloc, draft, 1);
    draft.put("exchange 1 fails\n");
    put_two_over(alloc, draft, over_faulty(alloc));
    put_relayed_twice(alloc, draft);
    replies::put_replies(alloc, draft);
}

/// Two clients over a relay with so many entries.
fn put_entries(alloc: Global, draft: &mut Draft, entries: usize) {
    put_named(draft, "entries ", &entries);
    draft.put("\n");
    put_two_over(alloc, draft, over_tiny(alloc, entries));
}

/// Two clients over a relay, which ends here. Over any link, since one of a known type is dear to prove where it ends.
fn put_two_over<L: Link + Drop>(alloc: Global, draft: &mut Draft, made: Result<Relay<L>, Unmade>) {
    match made {
        Ok(mut link) => put_two(alloc, draft, &mut link),
        Err(Unmade) => draft.lose(),
    }
}

fn put_two<L: Link>(alloc: Global, draft: &mut Draft, link: &mut Relay<L>) {
    let mut convoy = match begun(alloc, ADDRESS, 1) {
        Ok(convoy) => convoy,
        Err(Unmade) => return draft.lose(),
    };
    put_client(alloc, draft, &mut convoy, link);
    put_client(alloc, draft, &mut convoy, link);
    put_counts(draft, link);
}

fn put_counts<L: Link>(draft: &mut Draft, link: &Relay<L>) {
    put_named(draft, "relayed ", &link.relayed());
    put_named(draft, " forwarded ", &link.forwarded());
    put_named(draft, " exact ", &link.is_exact());
    put_named(draft, " faults ", &link.faults());
    draft.put("\n");
}

/// The first exchange with the publisher fails.
fn over_faulty(alloc: Global) -> Result<Relay<FaultyLink<LocalLink<Cutting>>>, Unmade> {
    let fails = Vec::from_array(alloc, [1])?;
    let link = link(alloc, &[], true)?;
    relay(alloc, FaultyLink::new(link, fails), 100)
}

/// A relay over a relay, by which a message is admitted between two clients.
fn put_relayed_twice(alloc: Global, draft: &mut Draft) {
    draft.put("a relay over a relay\n");
    match twice(alloc) {
        Ok(link) => put_twice(alloc, draft, link),
        Err(Unmade) => draft.lose(),
    }
}

fn twice(alloc: Global) -> Result<Relay<Relay<LocalLink<Cutting>>>, Unmade> {
    let below = over_tiny(alloc, 100)?;
    relay(alloc, below, 100)
}

fn put_twice(alloc: Global, draft: &mut Draft, mut link: Relay<Relay<LocalLink<Cutting>>>) {
    put_between(alloc, draft, &mut link);
    put_counts(draft, &link);
    let below = link.into_inner();
    put_counts(draft, &below);
    put_asked(draft, below);
}

fn put_between<L: Link>(alloc: Global, draft: &mut Draft, link: &mut L) {
    let mut convoy = match begun(alloc, ADDRESS, 1) {
        Ok(convoy) => convoy,
        Err(Unmade) => return draft.lose(),
    };
    put_client(alloc, draft, &mut convoy, link);
    put_posted(alloc, draft, link);
    put_client(alloc, draft, &mut convoy, link);
}

/// What the message is answered.
fn put_posted<L: Link>(alloc: Global, draft: &mut Draft, link: &mut L) {
    let mut reply = Vec::new(alloc);
    draft.need(link.exchange(alloc, "lc.example", POST_D60, &mut reply));
    draft.put_quoted(reply.as_slice());
    draft.put("\n");
}

/// How often the publisher was asked, and its newest version.
fn put_asked(draft: &mut Draft, below: Relay<LocalLink<Cutting>>) {
    let mut local = below.into_inner();
    put_named(draft, "asked ", &local.asked());
    let newest = local.publisher().newest();
    put_named(draft, " newest ", &newest.seconds());
    draft.put("\n");
    // A link of a known type is dear to prove where it ends, so `drop` takes it.
    drop(local);
}
