//! A journey of the fewest rides among those of the earliest arrival, by rounds over connections: each round allows one ride more.
//! It builds on `csa_scan`, which says the least arrival, and on the words of `lc_model`.
#![tactic(auto)]

mod fewest;
mod laws;
mod round;
mod rounds;

pub use fewest::fewest_of;
pub use laws::one_fewest;
