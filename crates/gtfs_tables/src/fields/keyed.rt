use crate::fields::TripRow;
use lc_model::{Id, Keyed};

impl Keyed for TripRow {
    ghost key = { λ row. row.trip };

    fn key(&self) -> &Id {
        &self.trip
    }
}
