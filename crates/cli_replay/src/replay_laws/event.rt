use crate::replay_laws::Message;
use lc_model::Query;

/// What happens next in an event sequence.
#[derive(Drop)]
pub enum Event {
    /// A new client asks this. It gets the next number, from 1 on.
    Ask(Query),
    /// The publisher receives this message.
    Message(Message),
    /// One turn of the client with this number.
    Turn(u32),
}
