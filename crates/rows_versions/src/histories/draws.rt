ghost use Rattle.std.specs.Prelude.{◌<◌};

/// Numbers that look drawn and are the same in each run: a linear congruential generator.
#[derive(Drop)]
pub(super) struct Draws {
    state: u32,
}

impl Draws {
    pub(super) fn new(seed: u32) -> Draws {
        Draws { state: seed }
    }

    /// The next number, below this one.
    pub(super) fn below(&mut self, end: u32) -> u32
        requires { 0 < end }
        ensures { result < end }
    {
        self.state = self
            .state
            .wrapping_mul(1_664_525)
            .wrapping_add(1_013_904_223);
        (self.state >> 16) % end
    }
}
