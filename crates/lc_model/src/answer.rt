use crate::{Journey, NoMemory, PlainData};
use std::alloc::Global;

/// What a question is answered.
#[derive(Drop)]
pub enum Answer {
    /// A best journey.
    Journey(Journey),
    /// There is no journey.
    NoJourney,
}

impl PlainData for Answer {
    fn copy(&self, alloc: Global) -> Result<Answer, NoMemory> {
        match self {
            Answer::Journey(journey) => Ok(Answer::Journey(journey.copy(alloc)?)),
            Answer::NoJourney => Ok(Answer::NoJourney),
        }
    }
}
