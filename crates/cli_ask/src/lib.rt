//! A question to an in-process publisher of a timetable with one message. The client asks it page by
//! page, and the room says what is printed of both. It builds on `timetable`, `publisher`, `convoy` and `lc_links`.
#![tactic(auto)]

mod admission;
mod block;
mod client;
mod end;
mod fewest_rides;
mod latest_departure;
mod laws;
mod opening;
mod publishing;
mod question;

pub use admission::{Heard, give};
pub use block::push_client;
pub use end::ClientEnd;
pub use fewest_rides::{ask_fewest, one_fewest_output};
pub use latest_departure::{ask_arrive, one_latest_output, some_wanted};
pub use laws::{one_output, one_publisher, some_wants};
pub use opening::{Opened, Unopened, open_home};
pub use publishing::{publisher_of, serving_publisher};
pub use question::{Asked, ask, printed};
