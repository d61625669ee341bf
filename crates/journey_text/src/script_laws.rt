ghost use Rattle.journey_text.specs.ScriptLaws.{NeverBoth, OneFault, OneScript, SomeReading};

/// Bytes say one script or have one first wrong row, never both and never neither.
pub fn one_script()
    ensures script { OneScript }
    ensures fault { OneFault }
    ensures never_both { NeverBoth }
    ensures some { SomeReading }
{}
