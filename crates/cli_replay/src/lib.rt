//! Replays an event sequence. A publisher of a timetable hears messages, while clients that share a cache of pages ask it in turn.
//! It says what is printed of it, too. Plans over a link are in `planning`, and what a command reads in `inputs`. It builds on `cli_ask`.
#![tactic(auto)]

mod course;
mod ends;
mod events;
mod hearing;
mod inputs;
mod plan_laws;
mod planning;
mod playing;
mod replay_laws;
mod summary;
mod text;

pub use ends::ends_of;
pub use inputs::{
    Inputs, Refusal, ReplayInputs, one_planned_script, read_inputs, read_plan, read_replay,
};
pub use plan_laws::{
    near_plans, one_client_asks, one_growing_plan, one_plan, plan_faults_are_own,
    plan_records_replies, plans_are_right, worked_plans,
};
pub use planning::{Planned, counts_are_growth, plan, relay, relays_plan_right, worked_counts};
pub use playing::{Replayed, replay};
pub use replay_laws::{
    Event, Message, courses_are_caused, courses_are_heard, courses_are_right, faults_are_own,
    one_course, one_hearing,
};
pub use summary::{Measures, measures_of, summary_text};
pub use text::text_of;
