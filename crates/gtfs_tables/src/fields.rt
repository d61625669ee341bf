//! What the files of a GTFS feed share: the rows of a table, what their fields say, and the first rule that is broken. The
//! trips that several files name are shared too. It builds on `gtfs_rows` and `lc_time`.
pub mod columns;
mod fault;
pub mod fields;
pub mod file_rows;
pub mod first_rule;
pub mod ids;
mod keyed;
pub mod known;
pub mod pair_places;
pub mod places;
pub mod table_rows;
pub mod text_places;
pub mod times;
mod trip_rows;

pub use fault::FileFault;
pub use trip_rows::{TripRow, TripRows};
