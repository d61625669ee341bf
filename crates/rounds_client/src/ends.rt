//! That a client of the fewest rides over an honest link ends rightly by the publisher's side at its other end, as laws. The pages that a
//! question needs have every best journey, and so one of the fewest rides. How such a client ends by the replies that it got, over any link.
//! It builds on `change_rounds` and on the laws of `convoy`.
mod laws;
mod near;
mod needed;
mod replies;
mod version;

pub use laws::{fewest_ends_right, one_fewest_end};
pub use near::near_ends_are_wrong;
pub use needed::{fewest_are_in_needed, fewest_of_journeys};
pub use replies::{fewest_by_its_replies, one_fewest_by_replies};
pub use version::fewest_at_version;
