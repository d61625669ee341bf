use crate::trips::StopTime;
use lc_model::{Id, Keyed};

/// By the trip.
impl Keyed for StopTime {
    ghost key = { λ time. time.trip };

    fn key(&self) -> &Id {
        &self.trip
    }
}
