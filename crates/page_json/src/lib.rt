//! The pages of connections and the stops document as JSON, each with its exact text, which is read back. Every other text has
//! its first fault. Members of objects are read and written in `object_members`. It builds on `lc_model`, on `lc_time`, on
//! `connection_uri`, on `itoa`, on `json` and on `serde_json`.
#![tactic(auto)]

mod change_reading;
mod connection_reading;
mod connection_writing;
mod cursor;
mod fronts;
mod guess;
mod id_writing;
mod known;
mod laws;
mod moment_text;
mod named;
mod object_members;
mod page;
mod page_reading;
mod page_writing;
mod sound;
mod stop_reading;
mod stops_guess;
mod stops_reading;
mod stops_writing;
mod urls;
mod written_page;
mod written_stops;

pub use laws::{one_reading, readings_are_valid, some_reading};
pub use object_members::{
    PageFault, bad_member, delay_at, id_at, id_if_there, json_in, member_at, moment_at,
    needed_list, needed_text, no_member, object_under, or_bad, seconds_at, text_if_there, text_in,
    text_under, write_moment, write_number, write_text,
};
pub use page::Page;
pub use page_reading::read_page;
pub use page_writing::page_text;
pub use stops_reading::read_stops;
pub use stops_writing::stops_text;
