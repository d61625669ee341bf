//! The changes between the stops of a feed, by the rows of transfers.txt and the stations of the stops. It builds on
//! `lc_model` and `gtfs_tables`.
#![tactic(auto)]

mod children;
mod fault;
mod origin;
mod partners;
mod rows;
mod rule;
mod table;
mod worked;

pub use fault::{ChangeFault, MOST_CHANGES};
pub use table::{changes, one_list_of_changes};
pub use worked::{refused_at_station, worked_six_stops, worked_station};
