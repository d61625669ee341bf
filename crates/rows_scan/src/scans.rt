//! What scans answer, forward and backward ones.
mod backs;
mod feeds;
mod forward;
mod said;

use rows_common::{Draft, Unmade};
use std::alloc::Global;

/// A line for each question to a scan.
pub(crate) fn put_scans(alloc: Global, draft: &mut Draft) {
    let mut text = String::new(alloc);
    let made = put_all(alloc, &mut text);
    draft.put_part(text.as_str(), made);
}

fn put_all(alloc: Global, text: &mut String) -> Result<(), Unmade> {
    forward::put_forward(alloc, text)?;
    backs::put_backs(alloc, text)
}
