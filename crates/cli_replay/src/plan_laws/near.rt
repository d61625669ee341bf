ghost use Rattle.std.specs.Prelude.{ℕ, Option};
ghost use Rattle.cli_replay.specs.PlanLaws.Near.{NoVersionAtGate, NoneIsCountedTwice, NoneIsLost, NotAnothersVersion, NotNewer, NotOneMore, SomeVersionElse};
ghost use Rattle.cli_replay.specs.PlanLaws.Worked.{WorkedSides};
ghost use Rattle.lc_world.specs.Sides.Side.{Side};

/// Near values are refused: the version of another client's time gate, or a newer one; a side that lost a message; one want more, or
/// one exchange more.
/// A version after a failure at the time gate is refused, and none after another failure.
pub fn near_plans()
    ensures anothers { NotAnothersVersion }
    ensures newer { NotNewer }
    ensures lost { NoneIsLost }
    ensures one_more { NotOneMore }
    ensures counted { NoneIsCountedTwice }
    ensures at_gate { NoVersionAtGate }
    ensures elsewhere { SomeVersionElse }
{}

/// Values that the definitions take, worked out by hand.
pub fn worked_plans()
    ensures { (a b c : Side) (known : Option ℕ) → WorkedSides a b c known }
{}
