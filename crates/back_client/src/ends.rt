//! That a question for the latest departure ends rightly over an honest link, by the publisher's side at its other end, as laws. It goes
//! back along the previous links: where it may stop, and which pages it needs. How it ends by the replies that it got, over any link. It builds
//! on `back_scan` and on the laws of `convoy`.
mod early;
mod journeys;
mod laws;
mod near;
mod needed;
mod replies;

pub use early::earlier_may_go;
pub use journeys::journeys_back;
pub use laws::{latest_ends_right, one_latest_answer, one_latest_end};
pub use near::near_ends_are_wrong;
pub use needed::{needed_back_are_taken, one_list_of_needed_back, pages_back_may_be_all};
pub use replies::{latest_by_its_replies, latest_faults_are_around_last, one_latest_by_replies};
