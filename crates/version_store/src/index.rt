//! One index of the runs of all versions. It has each run with the span of version numbers over which it holds, and all
//! connections in departure order. It builds on the words of `lc_model`, and knows nothing of messages.
mod base;
mod gather;
mod heaps;
mod index;
mod laws;
mod place;
mod place_set;
mod prepare;
mod rows;
mod spans;
mod state;
mod turn;
mod update;

pub use index::Index;
pub use laws::one_index;
