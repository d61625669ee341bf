use lc_model::Moment;

/// How a run is left last: after the connection of this sequence. The stop is a place in the stops document.
#[derive(Clone, Copy)]
pub struct Alighting {
    pub seq: u32,
    pub stop: usize,
    pub arr: Moment,
    /// The stop from which the next ride departs; none where the journey ends.
    pub next: Option<usize>,
}

/// The ride by which one leaves a stop. The run is a number of `RunNumbers`.
#[derive(Clone, Copy)]
pub struct Departure {
    pub run: usize,
    pub seq: u32,
    pub dep: Moment,
    pub alighting: Alighting,
}

/// The moment at which one leaves an end of the question, and the stop from which the first ride departs.
#[derive(Clone, Copy)]
pub struct Start {
    pub leaves: Moment,
    pub stop: usize,
}
