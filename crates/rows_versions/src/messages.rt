//! What worked bytes say as fields and as trip updates.
mod broken;
mod putting;
mod updates;
mod wire;
mod written;

use rows_common::{Draft, Unmade};
use std::alloc::Global;

/// A line for each case.
pub(crate) fn put_messages(alloc: Global, draft: &mut Draft) {
    let mut text = String::new(alloc);
    let made = put_all(alloc, &mut text);
    draft.put_part(text.as_str(), made);
}

fn put_all(alloc: Global, text: &mut String) -> Result<(), Unmade> {
    wire::put_wire(text)?;
    written::put_written(alloc, text)?;
    updates::put_updates(alloc, text)?;
    broken::put_faults(alloc, text)
}
