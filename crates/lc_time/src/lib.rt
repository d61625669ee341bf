//! Moments, service dates, times of day and decimal numbers as texts. Each reader takes exactly its grammar, and reads
//! back what is written. What the clock of a zone shows: the moment from which the times of a service day are counted, and
//! the date at a moment. It builds on `lc_model`, on the calendar and the zones of `jiff` and on `httpdate`.
#![tactic(auto)]

mod calendar;
mod clock;
mod date;
mod digits;
mod http;
mod iso;
mod laws;
mod zone;
mod zone_clock;

pub use calendar::days_at;
pub use clock::{CLOCK_END, clock_text, read_gtfs_time, read_start, start_text};
pub use date::{date_text, read_date};
pub use digits::{read_decimal, read_u32};
pub use http::{http_date, read_http_date, without_blanks};
pub use iso::{iso_text, read_iso};
pub use laws::one_value_a_text;
pub use zone::Zone;
pub use zone_clock::{anchor, civil_date, library_date, service_date};
