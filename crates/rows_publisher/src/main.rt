//! Prints what publishers and sessions of HTTP connections reply in worked cases, and what the edges of this machine do, a line
//! each. The expected lines are in `stdout`.
#![tactic(auto)]

mod making;
mod publishers;
mod sessions;

use rows_common::{Draft, exit_code};
use std::process::ExitCode;

fn main(rt: HostRuntime) -> ExitCode {
    let mut draft = Draft::new(rt.alloc());
    publishers::put_publishers(rt.alloc(), &mut draft, &rt);
    sessions::put_sessions(rt.alloc(), &mut draft);
    let printed = print!(rt; "{}", draft.as_str());
    exit_code(draft.made(), printed)
}
