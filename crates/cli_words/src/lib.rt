//! The arguments of a command line as a command, or that they are none. It builds on `lc_model`, `lc_time`,
//! `connection_uri`, `fragmenter`, `back_scan` and `clap`.
#![tactic(auto)]

mod arrive;
mod ask;
mod cache;
mod check;
mod command;
mod door;
mod drill;
mod feed_window;
mod fewest;
mod laws;
mod line;
mod options;
mod plan;
mod published;
mod publishing;
mod question;
mod relay;
mod replay;
mod serve;
mod update;
mod window;
mod words;

pub use command::{
    Arrive, Ask, Check, Command, Drill, FeedWindow, Fewest, Plan, Published, Publishing, Relay,
    Replay, Serve,
};
pub use drill::drilled_replay;
pub use laws::{default_address, default_publishing, one_command, words_are_lines};
pub use words::read_words;
