//! The texts of answers and of scripts, and the answers and scripts that texts are. A script says who asks what, which messages come
//! between, and who has a turn. It builds on `lc_model`, `lc_time`, `connection_uri` and the records of `gtfs_rows`.
#![tactic(auto)]

mod answer_reading;
mod answer_writing;
mod laws;
mod ride_words;
mod script;
mod script_fault;
mod script_laws;
mod script_reading;
mod script_row;

pub use answer_reading::read_answer;
pub use answer_writing::{answer_text, arrival_seconds, journey_text};
pub use laws::answers_differ;
pub use script::{Record, Script};
pub use script_fault::ScriptFault;
pub use script_laws::one_script;
pub use script_reading::read_script;
