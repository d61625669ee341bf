ghost use Rattle.std.specs.Prelude.{◌≡◌, ℕ, IfOk, List, MatchOption, Some, codes};
ghost use Rattle.cli_words.specs.Line.{HasFound, IsLine, plan_line, texts_of};
ghost use Rattle.cli_words.specs.Plan.{SaysPlan};
ghost use Rattle.cli_words.specs.declared.command.Plan.{Plan as Planned};

use crate::Plan;
use crate::cache::read_cache;
use crate::line::{read_line, text_of};
use crate::publishing::read_base;
use clap::ArgMatches;
use lc_model::NoMemory;
use std::alloc::Global;

/// The plain arguments of `plan` in their order, and its option.
static PLACES: [&str; 2] = ["url", "asks"];

static OPTIONS: [&str; 1] = ["cache"];

/// What the arguments after `plan` say. None exactly where they say no such command.
pub(crate) fn read_plan(alloc: Global, words: &[String]) -> Result<Option<Plan>, NoMemory>
    ensures { IfOk result (λ plan. MatchOption plan ((plan : Planned) → SaysPlan (texts_of words.now) plan → ⊥)
        (SaysPlan (texts_of words.now))) }
{
    match read_line(alloc, "plan", &PLACES, &OPTIONS, &[], words)? {
        Some(found) => found_plan(alloc, &found),
        None => Ok(None),
    }
}

/// What was found in a line of `plan`. None exactly where it says no such command.
fn found_plan<'a>(alloc: Global, found: &ArgMatches<'a>) -> Result<Option<Plan>, NoMemory>
    ensures { (words : List (List ℕ)) → IsLine plan_line words → HasFound plan_line words found.now → IfOk result (λ plan.
        MatchOption plan ((plan : Planned) → SaysPlan words plan → ⊥) (SaysPlan words)) }
{
    let Some(url) = found.get_str("url") else {
        return Ok(None);
    };
    let Some(asks) = found.get_str("asks") else {
        return Ok(None);
    };
    let Some(cache) = read_cache(found) else {
        return Ok(None);
    };
    match read_base(alloc, url)? {
        Some(base) => Ok(Some(Plan {
            base,
            asks: text_of(alloc, asks)?,
            cache,
        })),
        None => Ok(None),
    }
}
