use lc_model::{ServiceDate, Text};

/// What is asked of a feed.
#[derive(Drop)]
pub struct Scope {
    /// The name of the feed's directory.
    pub feed: Text,
    /// The word of its zone.
    pub zone: Text,
    /// The first date of the window.
    pub first: ServiceDate,
    /// How many dates the window has.
    pub days: u32,
    /// How long a change takes of which the feed says no time, in seconds.
    pub change: u32,
}
