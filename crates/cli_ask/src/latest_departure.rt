//! A question for the latest departure, to an in-process publisher of a timetable with one message. What is printed of it has the form of any
//! question, and the room says so. It builds on `back_client`.
mod client;
mod laws;
mod question;

pub use laws::{one_latest_output, some_wanted};
pub use question::ask_arrive;
