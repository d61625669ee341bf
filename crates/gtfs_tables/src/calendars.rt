//! What calendar.txt, calendar_dates.txt, frequencies.txt and transfers.txt of a GTFS feed say, as typed rows, or the first
//! rule that each breaks, with the row. It builds on `fields`.
mod calendar;
mod calendar_dates;
mod calendar_dates_file;
mod calendar_file;
mod frequencies_file;
mod frequency;
mod keyed;
mod laws;
mod services;
mod transfer;
mod transfers_file;

pub use calendar::{Weekly, WeeklyList};
pub use calendar_dates::{DateRow, DateRows};
pub use calendar_dates_file::read_calendar_dates;
pub use calendar_file::read_calendar;
pub use frequencies_file::read_frequencies;
pub use frequency::{Frequencies, Frequency};
pub use laws::{one_calendar, one_calendar_dates, one_frequencies, one_transfers};
pub use services::Services;
pub use transfer::{Transfer, Transfers};
pub use transfers_file::read_transfers;
