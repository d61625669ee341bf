//! What sessions of HTTP connections reply, however the bytes are cut.
mod steps;
mod tables;

use crate::making::{TAKING, publisher};
use fragmenter::Cutting;
use publisher::Publisher;
use rows_common::{Draft, Unmade};
use std::alloc::Global;
use tables::{Case, OF_MESSAGES, OF_REQUESTS};

/// A line for what comes in each case.
pub(crate) fn put_sessions(alloc: Global, draft: &mut Draft) {
    match publisher(alloc, &TAKING) {
        Ok(mut publisher) => put_tables(alloc, draft, &mut publisher),
        Err(Unmade) => draft.lose(),
    }
}

fn put_tables(alloc: Global, draft: &mut Draft, publisher: &mut Publisher<Cutting>) {
    put_each(alloc, draft, publisher, &OF_REQUESTS);
    put_each(alloc, draft, publisher, &OF_MESSAGES);
    steps::put_long_heads(alloc, draft, publisher);
    steps::put_hundred(alloc, draft, publisher);
}

fn put_each(alloc: Global, draft: &mut Draft, publisher: &mut Publisher<Cutting>, table: &[Case]) {
    for case in table {
        steps::put_case(alloc, draft, publisher, case);
    }
}
