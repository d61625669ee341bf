//! What clients have read, over any link, those that take turns and one that asks alone. How each ended by that, and which pages were
//! cached, as definitions with their laws. It asks nothing of the link.
mod laws;

pub use laws::{
    alone_asks_all, alone_over_any_link, cached_pages, faults_are_around_last, one_end,
    one_recorded_end,
};
