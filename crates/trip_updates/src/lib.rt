//! Trip updates of GTFS Realtime: which bytes are a message, of which update, and the first fault of all others. It
//! builds on `rt_protobuf` for the fields, on `lc_time` for dates and times of day, and on `lc_model` for what is said.
#![tactic(auto)]

mod descriptor;
mod entity;
mod event;
mod fault;
mod header;
mod law;
mod message;
mod stop;
mod trip;

pub use fault::{Part, RtFault};
pub use law::one_meaning;
pub use lc_model::{
    EntityList, EntityNews, Event, Relation, StopNews, StopNewsList, TripKind, TripNews, Update,
};
pub use message::read_message;
