//! The links that do not leave the process: to an in-process publisher, over a link with failures, and to nobody. At home the
//! program answers and hands the answer on. It builds on `publisher` and on `lc_world`.
#![tactic(auto)]

mod closed_link;
mod faulty_link;
mod home_link;
mod local_link;
mod taking;

pub use closed_link::ClosedLink;
pub use faulty_link::FaultyLink;
pub use home_link::HomeLink;
pub use local_link::LocalLink;
