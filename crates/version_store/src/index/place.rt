ghost use Rattle.std.specs.Prelude.{◌≡◌};

use lc_model::Moment;
use std::ops::Bound;

/// Where a connection is: its departure, the number of the run's state, and the place of its first call. In this order the
/// places of a span of departures follow one another.
#[derive(Clone, Copy, PartialEq, Eq, PartialOrd, Ord)]
pub(crate) struct Place {
    pub(crate) dep: Moment,
    pub(crate) state: u32,
    pub(crate) at: u32,
}

impl Place {
    ghost use Rattle.version_store.specs.Index.Places.{end_of, first_at};

    /// What is before every other place of this departure.
    pub(crate) fn first_at(dep: Moment) -> Place
        ensures { result ≡ first_at dep }
    {
        Place {
            dep,
            state: 0,
            at: 0,
        }
    }

    /// Where a span of departures ends that begins at one moment and ends before the other, where there is one.
    pub(crate) fn end_of(from: Moment, to: Option<Moment>) -> Bound<Place>
        ensures { result ≡ end_of from to }
    {
        match to {
            Some(to) => Bound::Excluded(Place::first_at(from.max(to))),
            None => Bound::Unbounded,
        }
    }
}
