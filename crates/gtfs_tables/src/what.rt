ghost use Rattle.std.specs.Prelude.{◌≡◌, Some};
ghost use Rattle.gtfs_tables.specs.Texts.{what_text};

use std::fmt;

/// What there may be too much of, in a feed or in what is made of it.
#[derive(Clone, Copy, PartialEq, Eq)]
pub enum What {
    /// The rows of stops.txt.
    Stops,
    /// The rows of trips.txt.
    Trips,
    /// The rows of stop_times.txt.
    StopTimes,
    /// The connections of the runs in a window.
    Connections,
    /// The changes between stops.
    Changes,
    /// The bytes of a realtime message.
    Update,
}

impl fmt::Display for What {
    ghost output = { λ what. Some (what_text what) };

    fn fmt<W: fmt::Write>(&self, f: &mut fmt::Formatter<W>) -> fmt::Result {
        match self {
            What::Stops => write!(f, "stops"),
            What::Trips => write!(f, "trips"),
            What::StopTimes => write!(f, "stop times"),
            What::Connections => write!(f, "connections"),
            What::Changes => write!(f, "changes"),
            What::Update => write!(f, "update"),
        }
    }
}
