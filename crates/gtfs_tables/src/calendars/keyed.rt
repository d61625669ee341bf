use crate::calendars::Frequency;
use lc_model::{Id, Keyed};

/// By the trip.
impl Keyed for Frequency {
    ghost key = { λ frequency. frequency.trip };

    fn key(&self) -> &Id {
        &self.trip
    }
}
