//! The timetable of a feed in a window of days: its runs and its stops document in the zone that a word says. Or why there
//! is none. Each of its parts alone. It builds on `gtfs_tables`, `service_days`, `trip_calls` and `change_table`.
#![tactic(auto)]

mod fault;
mod laws;
mod loading;
mod made;
mod of_tables;
mod scope;
mod timetable;
mod zone;
mod zone_end;

pub use fault::LoadFault;
pub use laws::{one_end, one_timetable};
pub use loading::load;
pub use of_tables::{changes, days, runs};
pub use scope::Scope;
pub use timetable::Timetable;
