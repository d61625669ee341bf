ghost use Rattle.convoy.specs.Agreement.Worked.{WorkedNames};

/// Values that the definitions take, worked out by hand.
pub fn worked_names()
    ensures { WorkedNames }
{}
