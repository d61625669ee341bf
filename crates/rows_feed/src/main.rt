//! Prints worked cases of the files of a feed, of whole feeds, and of their service days, changes and runs, a line each. The
//! expected lines are in `stdout`.
#![tactic(auto)]

mod feeds;
mod runs;
mod tables;

use rows_common::{Draft, exit_code};
use std::process::ExitCode;

fn main(rt: HostRuntime) -> ExitCode {
    let mut draft = Draft::new(rt.alloc());
    tables::put_tables(rt.alloc(), &mut draft);
    feeds::put_feeds(rt.alloc(), &mut draft);
    runs::put_runs(rt.alloc(), &mut draft);
    let printed = print!(rt; "{}", draft.as_str());
    exit_code(draft.made(), printed)
}
