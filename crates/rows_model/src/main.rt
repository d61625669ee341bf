//! Prints worked cases of the words of the timetable, of directories and sinks, of updates and cuts, and of doors. After these
//! come texts as they are read and written. The expected lines are in `stdout`.
#![tactic(auto)]

mod doors;
mod making;
mod model;
mod words;

use rows_common::{Draft, exit_code};
use std::process::ExitCode;

fn main(rt: HostRuntime) -> ExitCode {
    let mut draft = Draft::new(rt.alloc());
    model::put_model(rt.alloc(), &mut draft);
    doors::put_doors(rt.alloc(), &mut draft);
    words::put_words(rt.alloc(), &mut draft);
    let printed = print!(rt; "{}", draft.as_str());
    exit_code(draft.made(), printed)
}
