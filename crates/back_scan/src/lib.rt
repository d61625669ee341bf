//! Latest departures over connections in departure order, taken from the last one back. A scan is begun for a question,
//! takes lists of connections, each before those taken so far, and says the latest departure and a journey that has it.
//! It builds on the words of `lc_model`, and on places of stops, numbers of runs and walks of `csa_scan`.
#![tactic(auto)]

mod alight;
mod arrive_query;
mod depart;
mod forward;
mod journey;
mod laws;
mod progress;
mod scan;
mod trace;

pub use arrive_query::{ArriveQuery, FIRST_ARRIVE, LAST_ARRIVE, LONGEST_HORIZON};
pub use forward::forward_query;
pub use laws::one_latest_departure;
pub use scan::BackScan;
