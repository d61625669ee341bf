//! Relays over a link, and over one to a publisher of the small feed Tiny.
use crate::making::base;
use crate::publishing::link;
use fragmenter::Cutting;
use lc_links::LocalLink;
use lc_world::Link;
use page_relay::Relay;
use rows_common::Unmade;
use std::alloc::Global;

/// A relay over a link that keeps so many replies at most.
pub(super) fn relay<L: Link + Drop>(
    alloc: Global,
    link: L,
    entries: usize,
) -> Result<Relay<L>, Unmade> {
    if entries < 1 || entries > 1_000 {
        return Err(Unmade);
    }
    let base = base(alloc)?;
    match Relay::new(alloc, link, base, entries) {
        Ok(relay) => Ok(relay),
        Err(_) => Err(Unmade),
    }
}

/// A relay over a link to a publisher of Tiny, whose pages are of half an hour. It takes messages.
pub(super) fn over_tiny(
    alloc: Global,
    entries: usize,
) -> Result<Relay<LocalLink<Cutting>>, Unmade> {
    let link = link(alloc, &[], true)?;
    relay(alloc, link, entries)
}
