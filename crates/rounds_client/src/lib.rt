//! A client of the fewest rides: it asks by a client without a cache, keeps what that was given, and answers over it. It builds on
//! `page_client`, `convoy` and `change_rounds`.
#![tactic(auto)]

mod asking;
mod ending;
mod ends;
mod given;

pub use ending::{FewestEnd, fewest};
pub use ends::{
    fewest_are_in_needed, fewest_at_version, fewest_by_its_replies, fewest_ends_right,
    fewest_of_journeys, near_ends_are_wrong, one_fewest_by_replies, one_fewest_end,
};
