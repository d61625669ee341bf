//! Prints what commands result in: their arguments, the rows of their script, the status and the output. It builds on `lc_cli`.
//! The expected lines are in `stdout`.
#![tactic(auto)]

mod doors;
mod feeds;
mod folders;
mod links;
mod lying;
mod messages;
mod planning;
mod playing;
mod relaying;
mod rides;
mod running;
mod servers;
mod words;

use rows_common::{Draft, exit_code};
use std::alloc::Global;
use std::process::ExitCode;

fn main(rt: HostRuntime) -> ExitCode {
    let mut draft = Draft::new(rt.alloc());
    put_cases(rt.alloc(), &mut draft);
    let printed = print!(rt; "{}", draft.as_str());
    exit_code(draft.made(), printed)
}

fn put_cases(alloc: Global, draft: &mut Draft) {
    playing::put_each(alloc, draft, words::WORDS, "\n");
    playing::put_each(alloc, draft, messages::CASES, "\n\n");
    playing::put_each(alloc, draft, words::ARRIVES, "\n");
    playing::put_failures(alloc, draft);
    feeds::put_feeds(alloc, draft);
    links::put_links(alloc, draft);
    lying::put_lies(alloc, draft);
    planning::put_plans(alloc, draft);
    servers::put_servings(alloc, draft);
    rides::put_rides(alloc, draft);
    relaying::put_relays(alloc, draft);
}
