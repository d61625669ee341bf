//! Prints what links, caches of pages, clients, convoys and relays result in, in worked cases, a line a value. The expected lines
//! are in `stdout`.
#![tactic(auto)]

mod arrivals;
mod clients;
mod convoys;
mod making;
mod publishing;
mod relays;
mod rounds;
mod said;
mod world;

use rows_common::{Draft, exit_code};
use std::alloc::Global;
use std::process::ExitCode;

fn main(rt: HostRuntime) -> ExitCode {
    let mut draft = Draft::new(rt.alloc());
    put_cases(rt.alloc(), &mut draft);
    let printed = print!(rt; "{}", draft.as_str());
    exit_code(draft.made(), printed)
}

fn put_cases(alloc: Global, draft: &mut Draft) {
    world::put_world(alloc, draft);
    clients::put_clients(alloc, draft);
    convoys::put_convoys(alloc, draft);
    arrivals::put_arrivals(alloc, draft);
    rounds::put_rounds(alloc, draft);
    relays::put_relays(alloc, draft);
}
