//! What links and caches of pages give.
mod cache;
mod links;

use rows_common::Draft;
use std::alloc::Global;

/// A line for each value.
pub(crate) fn put_world(alloc: Global, draft: &mut Draft) {
    links::put_links(alloc, draft);
    cache::put_caches(alloc, draft);
}
