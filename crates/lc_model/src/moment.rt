ghost use Rattle.std.specs.Prelude.{◌≡◌, ◌<◌, SomeIff};

use std::marker::Model;

/// The first second that is no moment any more: 9999-12-30T00:00:00Z.
pub const MOMENTS_END: u64 = 253_402_128_000;

/// A whole number of seconds since 1970-01-01T00:00:00Z, below 9999-12-30T00:00:00Z. A contract sees the number.
#[derive(Clone, Copy, Debug, PartialEq, Eq, PartialOrd, Ord, Hash)]
pub struct Moment {
    seconds: u64,
}

impl Model for Moment {
    ghost use Rattle.std.specs.Prelude.{ℕ, ◌<◌};

    ghost Value = { ℕ };

    ghost view = { λ m. m.seconds };

    ghost invariant = { λ m. m.seconds < 253_402_128_000 };

    ghost inverse = { λ n. record { seconds = n } };
}

impl Moment {
    /// The moment of this many seconds since 1970, or none where it is past the range.
    pub fn new(seconds: u64) -> Option<Moment>
        ensures { SomeIff result (seconds < MOMENTS_END) seconds }
    {
        if seconds < MOMENTS_END {
            Some(Moment { seconds })
        } else {
            None
        }
    }

    pub fn seconds(self) -> u64
        ensures value { result ≡ self }
        ensures in_range { result < MOMENTS_END }
    {
        self.seconds
    }
}
