//! The input that a drill generates from a number: the tables of a feed, realtime messages, and a script. It builds on `lc_io` and
//! `lc_time`, and on `rt_protobuf` for the bytes of messages, whose meaning is that of `trip_updates`.
#![tactic(auto)]

mod draws;
mod files;
mod laws;
mod messages;
mod names;
mod network;
mod rows;
mod script;

pub use files::drill_files;
pub use laws::{drilled_messages, worked_drill};
