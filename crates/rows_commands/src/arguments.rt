//! What the arguments of a command line say. There are options before, between and after the plain ones, and what is no command.
mod asking;
mod commands;
mod drills;
mod network;
mod options;
mod words;

use rows_common::Draft;
use std::alloc::Global;

/// A line for each case.
pub(crate) fn put_arguments(alloc: Global, draft: &mut Draft) {
    commands::put_commands(alloc, draft);
    drills::put_drilled(alloc, draft);
    options::put_options(alloc, draft);
}
