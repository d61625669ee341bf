//! The versions of a timetable: the messages that were admitted, and the runs, departures and rows of each version. It builds
//! on `live_calls` for calls and runs under news, on `trip_updates` for messages, and on `lc_time` for dates.
#![tactic(auto)]

mod admission;
mod admit;
mod calls_by;
mod changes;
mod dated;
mod exchange;
mod filed;
mod force;
mod index;
mod index_laws;
mod indexed;
mod kept;
mod label;
mod last_news;
mod laws;
mod live_runs;
mod message_fault;
mod named;
mod near;
mod rows;
mod spots;
mod store;
mod taken;
mod touched_keys;
mod trips;

pub use admission::{AdmitFault, Admitted, MOST_BYTES, MOST_MESSAGE_BYTES, MOST_MESSAGES};
pub use index::{Index, one_index};
pub use index_laws::{
    force_goes_on, held_are_live, others_stay, put_at_once, same_news_same_run, sorted_are_rows,
    touch_few_keys, update_holds, walked_are_connections, worked_index,
};
pub use kept::message_date;
pub use laws::{
    cuts_do_not_matter, near_values, one_list_of_rows, one_outcome, some_list_of_rows, worked_store,
};
pub use message_fault::MessageFault;
pub use store::Store;
