//! The commands of `lc`: they check feeds, publish them, and plan journeys over pages that a publisher gives. It builds on the
//! arguments, the timetable of a feed, `cli_ask`, `cli_replay`, `cli_drill` and `cli_serve`.
#![tactic(auto)]

mod block;
mod check_text;
mod command;
mod course;
mod drill;
mod laws;
mod plan;
mod question;
mod refusal;
mod replay;
mod scope;
mod serve;
mod server;
mod status;
mod top;
mod work;
mod worked;
mod worked_questions;

pub use laws::{
    headline, near_arrive, near_fewest, one_planned, one_relayed, one_run, one_served, one_side,
    one_status,
};
pub use refusal::refuse;
pub use status::{Status, code};
pub use top::run;
pub use worked::{worked_answer, worked_end, worked_plan};
pub use worked_questions::{worked_fewest, worked_latest};
