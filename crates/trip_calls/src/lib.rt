//! The runs of a feed's trips on the dates of their services, in the feed's zone, and their connections. It builds on
//! `gtfs_tables` and `service_days`.
#![tactic(auto)]

mod all_runs;
mod counting;
mod laws;
mod load_fault;
mod plannable;
mod run_connections;
mod start;
mod starts;
mod stays;
mod trip_runs;

pub use all_runs::runs;
pub use laws::{blank_rows_lie_between, one_list_of_runs, worked_starts, worked_times};
pub use load_fault::{LoadFault, MOST_CONNECTIONS};
pub use plannable::{are_plannable, is_plannable};
pub use run_connections::connections;
