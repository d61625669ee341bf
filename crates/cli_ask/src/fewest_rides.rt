//! A question for the fewest rides, to an in-process publisher of a timetable with one message. What is printed of it has the form of any
//! question, and the room says so. It builds on `rounds_client`.
mod client;
mod laws;
mod question;

pub use laws::one_fewest_output;
pub use question::ask_fewest;
