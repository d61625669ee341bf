use lc_model::Moment;

/// How a run is boarded first: at the connection of this sequence. The stop is a place in the stops document.
#[derive(Clone, Copy)]
pub struct Boarding {
    pub seq: u32,
    pub stop: usize,
    pub dep: Moment,
    /// The arrival after which the run is boarded; none where the journey begins.
    pub after: Option<usize>,
}

/// A ride by which a stop was reached. The run is a number of `RunNumbers`, the stop a place in the stops document.
#[derive(Clone, Copy)]
pub struct Arrival {
    pub run: usize,
    pub boarding: Boarding,
    pub last_seq: u32,
    pub stop: usize,
    pub arr: Moment,
}

/// The first second at which one may board at a stop, and the arrival after which one does.
#[derive(Clone, Copy)]
pub struct Ready {
    pub at: u64,
    pub after: usize,
}

/// The end of the question that is nearest to a stop, as a place in the stops document. The seconds of the walk are 0
/// where the stop is this end itself.
#[derive(Clone, Copy)]
pub struct Near {
    pub place: usize,
    pub seconds: u32,
}

/// An arrival at an end of the question, by a walk after the arrival at the place or without one.
#[derive(Clone, Copy)]
pub struct Goal {
    pub arr: Moment,
    pub place: usize,
}
