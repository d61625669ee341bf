//! The tables of a GTFS feed in a directory, or the first rule or limit that it breaks, with file and row. What the
//! files share is in `fields`, and each file in `trips` or `calendars`. It builds on `gtfs_rows`, `lc_io` and `lc_time`.
#![tactic(auto)]

mod calendars;
mod end;
mod fault;
mod feed;
mod feed_file;
mod fields;
mod judge;
mod laws;
mod look;
mod parts;
mod steps;
mod tables;
mod trips;
mod what;

pub use calendars::{
    DateRow, DateRows, Frequencies, Frequency, Services, Transfer, Transfers, Weekly, WeeklyList,
    one_calendar, one_calendar_dates, one_frequencies, one_transfers, read_calendar,
    read_calendar_dates, read_frequencies, read_transfers,
};
pub use fault::FeedFault;
pub use feed::read_feed;
pub use feed_file::FeedFile;
pub use fields::{FileFault, TripRow, TripRows};
pub use laws::one_feed;
pub use tables::Tables;
pub use trips::{
    StopTime, StopTimes, TimedTrips, Visit, one_stop_times, one_stops, one_trips, read_stop_times,
    read_stops, read_trips,
};
pub use what::What;
