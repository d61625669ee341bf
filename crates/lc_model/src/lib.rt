//! The words of the timetable that every other crate speaks: moments, stops, runs, connections, questions and
//! journeys. Each has the facts that hold of every value, and the definitions that contracts cite. It builds on
//! nothing but `std`.
#![tactic(auto)]

mod answer;
mod call;
mod change;
mod changes;
mod connection;
mod date;
mod doc;
mod id;
mod items;
mod journey;
mod key;
mod keyed;
mod laws;
mod memory;
mod moment;
mod page;
mod query;
mod ranked;
mod ride;
mod run;
mod stop;
mod text;
mod versions;
mod walk;

pub use answer::Answer;
pub use call::{Call, Calls};
pub use change::Change;
pub use changes::Changes;
pub use connection::{Connection, Connections};
pub use date::ServiceDate;
pub use doc::StopsDoc;
pub use id::Id;
pub use items::Items;
pub use journey::Journey;
pub use key::RunKey;
pub use keyed::{Keyed, items_of, keys_of, sorted_keys};
pub use laws::{leaving_within, one_arrival, one_list_of_connections, one_walk};
pub use memory::{NoMemory, PlainData, copy_each};
pub use moment::{MOMENTS_END, Moment};
pub use page::PageName;
pub use query::{FIRST_LEAVE, LAST_LEAVE, Query};
pub use ranked::{Ranked, first_disorder};
pub use ride::{Ride, Rides};
pub use run::{Run, Runs};
pub use stop::{Stop, Stops};
pub use text::{Bytes, Text};
pub use versions::{
    EntityList, EntityNews, Event, NewsList, Relation, StopNews, StopNewsList, TripKind, TripNews,
    Update, worked_versions,
};
pub use walk::Walk;
