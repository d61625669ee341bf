ghost use Rattle.journey_text.specs.Laws.{AnswersDiffer};

/// Different answers have different texts.
pub fn answers_differ()
    ensures { AnswersDiffer }
{}
