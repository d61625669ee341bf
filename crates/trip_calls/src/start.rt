ghost use Rattle.std.specs.Prelude.{◌<◌};
ghost use Rattle.std.specs.Option.{ForSome};

/// When a run of a trip starts, in seconds of a service day; none where no row of frequencies.txt is of the trip.
#[derive(Clone, Copy, PartialEq, Eq)]
pub(crate) struct Start {
    pub(crate) seconds: Option<u32>,
    pub ghost in_range: { ForSome seconds (λ s. s < 360_000) },
}
