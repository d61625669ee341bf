//! The calls of runs as news change them, their connections, and the runs that news of added trips make. It builds on the
//! words and definitions of `lc_model`.
#![tactic(auto)]

mod added_calls;
mod build_run;
mod forward;
mod laws;
mod naming;
mod run_calls;
mod run_connections;
mod stated;

pub use build_run::{added_key, added_run, added_run_on};
pub use laws::{calls_go_forward, live_without_news, one_added_run, one_list_of_live_runs};
pub use run_calls::live;
pub use run_connections::connections;
