ghost use Rattle.cli_replay.specs.Inputs.Laws.{OnePlan};

use journey_text::one_script;

/// Equal files say one script of questions and turns.
pub fn one_planned_script()
    ensures { OnePlan }
{
    one_script();
}
