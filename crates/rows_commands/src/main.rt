//! Prints what the arguments of a command line say, a line a case, and how many bytes the generated files of drills have. The
//! expected lines are in `stdout`.
#![tactic(auto)]

mod arguments;
mod drill;

use rows_common::{Draft, exit_code};
use std::process::ExitCode;

fn main(rt: HostRuntime) -> ExitCode {
    let mut draft = Draft::new(rt.alloc());
    arguments::put_arguments(rt.alloc(), &mut draft);
    drill::put_drills(rt.alloc(), &mut draft);
    let printed = print!(rt; "{}", draft.as_str());
    exit_code(draft.made(), printed)
}
