//! Prints what scans and rounds of worked cases answer, a line each. The expected lines are in `stdout`.
#![tactic(auto)]

mod feeds;
mod making;
mod rounds;
mod said;
mod scans;

use rows_common::{Draft, exit_code};
use std::process::ExitCode;

fn main(rt: HostRuntime) -> ExitCode {
    let mut draft = Draft::new(rt.alloc());
    scans::put_scans(rt.alloc(), &mut draft);
    rounds::put_rounds(rt.alloc(), &mut draft);
    let printed = print!(rt; "{}", draft.as_str());
    exit_code(draft.made(), printed)
}
