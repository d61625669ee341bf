//! Texts of moments, dates, times, numbers, bases, ids, names, pages and versions, as they are read and written.
mod lines;
mod times;
mod uris;
mod versions;

use rows_common::{Draft, Unmade};
use std::alloc::Global;

/// A line for each case.
pub(crate) fn put_words(alloc: Global, draft: &mut Draft) {
    let mut text = String::new(alloc);
    let made = put_all(alloc, &mut text);
    draft.put_part(text.as_str(), made);
}

fn put_all(alloc: Global, text: &mut String) -> Result<(), Unmade> {
    put_times(text)?;
    uris::put_bases_and_ids(alloc, text)?;
    put_names(alloc, text)?;
    versions::put_versions(text)?;
    put_urls(alloc, text)
}

fn put_times(text: &mut String) -> Result<(), Unmade> {
    times::put_moments(text)?;
    times::put_days(text)?;
    times::put_decimals(text)
}

fn put_names(alloc: Global, text: &mut String) -> Result<(), Unmade> {
    let base = uris::base(alloc, "http://lc.example")?;
    uris::put_names_and_pages(alloc, text, &base)
}

fn put_urls(alloc: Global, text: &mut String) -> Result<(), Unmade> {
    let base = uris::base(alloc, "http://lc.example/lc/")?;
    versions::put_urls(alloc, text, &base)
}
