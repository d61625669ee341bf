//! Prints what is read and written of texts, a line a case: members of JSON, pages and stops documents, answers, scripts, and
//! messages of HTTP. The expected lines are in `stdout`.
#![tactic(auto)]

mod messages;
mod texts;
mod written;

use rows_common::{Draft, exit_code};
use std::process::ExitCode;

fn main(rt: HostRuntime) -> ExitCode {
    let mut draft = Draft::new(rt.alloc());
    texts::put_texts(rt.alloc(), &mut draft);
    messages::put_messages(rt.alloc(), &mut draft);
    let printed = print!(rt; "{}", draft.as_str());
    exit_code(draft.made(), printed)
}
