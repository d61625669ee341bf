//! What is read and written of texts: members of JSON, pages and stops documents, answers, and scripts.
mod answers;
mod document_texts;
mod members;
mod other_pages;
mod page_texts;
mod pages;
mod scripts;

use rows_common::Draft;
use std::alloc::Global;

/// A line for each case.
pub(crate) fn put_texts(alloc: Global, draft: &mut Draft) {
    members::put_members(alloc, draft);
    pages::put_pages(alloc, draft);
    answers::put_answers(alloc, draft);
    scripts::put_scripts(alloc, draft);
}
