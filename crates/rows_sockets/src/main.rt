//! Prints what a door and a link of sockets do in worked cases, a line a value. The expected lines are in `stdout`. The door
//! is that of a second process, which the program starts from its own file. The two meet at a free port of the loopback address.
#![tactic(auto)]

mod child;
mod failing;
mod links;
mod server;

use rows_common::{Draft, Unmade, exit_code};
use std::env;
use std::process::ExitCode;

fn main(rt: HostRuntime) -> ExitCode {
    match is_server(&rt) {
        Ok(true) => exit_code(server::serve(&rt), Ok(())),
        Ok(false) => meet_server(&rt),
        Err(Unmade) => ExitCode::FAILURE,
    }
}

/// Whether this is the second process, which has an argument.
fn is_server(rt: &HostRuntime) -> Result<bool, Unmade> {
    Ok(env::args(rt)?.len() > 1)
}

fn meet_server(rt: &HostRuntime) -> ExitCode {
    let mut draft = Draft::new(rt.alloc());
    put_cases(rt, &mut draft);
    let printed = print!(rt; "{}", draft.as_str());
    exit_code(draft.made(), printed)
}

fn put_cases(rt: &HostRuntime, draft: &mut Draft) {
    match child::put_server(rt, draft) {
        Ok(port) => failing::put_nobody(rt, draft, port),
        Err(Unmade) => draft.lose(),
    }
    failing::put_no_authorities(rt, draft);
}
