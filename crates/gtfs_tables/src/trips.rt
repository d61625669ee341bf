//! What stops.txt, trips.txt and stop_times.txt of a GTFS feed say, as typed rows, or the first rule that each breaks, with
//! the row. It builds on `fields`.
mod groups;
mod guesses;
mod keyed;
mod laws;
mod left_out;
mod near;
mod sound_visits;
mod stop_time_rows;
mod stop_times;
mod stops;
mod timed_trips;
mod timing;
mod trip_places;
mod trips;
mod visits;

pub use laws::{one_stop_times, one_stops, one_trips};
pub use stop_times::{StopTime, StopTimes};
pub use stops::read_stops;
pub use timed_trips::{TimedTrips, read_stop_times};
pub use trips::read_trips;
pub use visits::Visit;
