//! What a command reads: the timetable of its feed, a message, and a script that names messages, or one of questions and
//! turns alone. Else it says why it is refused. It builds on `timetable` and `journey_text`.
mod inputs;
mod laws;
mod message;
mod plan;
mod refusal;
mod script;

pub use inputs::{Inputs, read_inputs};
pub use laws::one_planned_script;
pub use plan::read_plan;
pub use refusal::Refusal;
pub use script::{ReplayInputs, read_replay};
