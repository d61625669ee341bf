//! Cuts: where the pages of a version begin. It builds on the definitions of `lc_model`.
#![tactic(auto)]

mod by_count;
mod by_span;
mod cutting;
mod fragmenter;
mod whole;

pub use by_count::{ByCount, MOST_CONNECTIONS};
pub use by_span::{BySpan, LONGEST_SPAN};
pub use cutting::Cutting;
pub use fragmenter::Fragmenter;
pub use whole::Whole;
