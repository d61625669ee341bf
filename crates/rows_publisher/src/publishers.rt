//! What publishers reply to worked requests, and what the edges of this machine do.
mod links;
mod replies;
mod requests;
mod system;
mod versions;

use http_text::HeadRoom;
use rows_common::Draft;
use std::alloc::Global;

/// A line for each case.
pub(crate) fn put_publishers(alloc: Global, draft: &mut Draft, rt: &HostRuntime) {
    match HeadRoom::new(alloc) {
        Ok(mut room) => {
            replies::put_replies(alloc, draft, &mut room);
            versions::put_versions(alloc, draft, &mut room);
        }
        Err(_) => draft.lose(),
    }
    links::put_links(alloc, draft);
    system::put_files(alloc, draft, rt);
    system::put_output(draft, rt);
}
