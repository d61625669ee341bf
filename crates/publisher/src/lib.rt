//! A publisher of a timetable with its versions as pages over HTTP: it stands for a side, and answers each request as that side
//! replies. It builds on `version_store`, on `fragmenter`, on the sides of `lc_world`, and on `lru` of the kit.
#![tactic(auto)]

mod cut_cache;
mod kept;
mod laws;
mod options;
mod pages;
mod parameters;
mod place;
mod publisher;
mod response;
mod router;
mod updates;

pub use laws::{some_reply, some_timetable};
pub use options::Options;
pub use publisher::Publisher;
pub use version_store::{AdmitFault, Admitted};
