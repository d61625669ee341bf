//! Prints what worked bytes say as trip updates, and what comes out of live calls, added trips, versions and an index of them.
//! Then it compares the versions after made histories of messages with versions that are worked out anew. The expected lines
//! are in `stdout`.
#![tactic(auto)]

mod histories;
mod late;
mod making;
mod messages;
mod versions;

use rows_common::{Draft, exit_code};
use std::process::ExitCode;

fn main(rt: HostRuntime) -> ExitCode {
    let mut draft = Draft::new(rt.alloc());
    messages::put_messages(rt.alloc(), &mut draft);
    versions::put_versions(rt.alloc(), &mut draft);
    histories::put_histories(rt.alloc(), &mut draft);
    let printed = print!(rt; "{}", draft.as_str());
    exit_code(draft.made(), printed)
}
