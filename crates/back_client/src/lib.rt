//! One client that asks for the latest departure: it asks the time gate, the stops document and page after page along the
//! previous links, until no earlier page can be better. It builds on `back_scan`, on the requests and tests of replies of
//! `page_client`, and on the links of `lc_world`.
#![tactic(auto)]

mod asking;
mod ends;
mod exchange;
mod outcome;
mod page;
mod refusal;
mod step;
mod walk;

pub use asking::arrive;
pub use ends::{
    earlier_may_go, journeys_back, latest_by_its_replies, latest_ends_right,
    latest_faults_are_around_last, near_ends_are_wrong, needed_back_are_taken, one_latest_answer,
    one_latest_by_replies, one_latest_end, one_list_of_needed_back, pages_back_may_be_all,
};
pub use outcome::ArriveEnd;
