//! Zones as words, and the dates of services; it hands on what a zone's clock shows. It builds on `lc_time`, on the typed
//! rows of `gtfs_tables` and on the zones of `jiff`.
#![tactic(auto)]

mod dates;
mod laws;
mod listing;
mod service_day;
mod window;
mod zone_word;

pub use dates::days;
pub use laws::{days_in_utc, one_list_of_days, one_zone_a_word};
pub use lc_time::{Zone, anchor, civil_date};
pub use service_day::{Days, ServiceDay};
pub use zone_word::{ZoneFault, read_zone, zone_file};
