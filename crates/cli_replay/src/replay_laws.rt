//! The event sequence of a day that is replayed: who asks, which messages arrive, and who has a turn. What it means that it was played rightly,
//! and the laws that a sequence which was played over a link was played so. It builds on the laws of `convoy`.
mod event;
mod laws;
mod message;

pub use event::Event;
pub use laws::{
    courses_are_caused, courses_are_heard, courses_are_right, faults_are_own, one_course,
    one_hearing,
};
pub use message::Message;
