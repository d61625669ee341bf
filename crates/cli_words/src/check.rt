ghost use Rattle.std.specs.Prelude.{ℕ, IfOk, List, MatchOption};
ghost use Rattle.cli_words.specs.Check.{SaysCheck};
ghost use Rattle.cli_words.specs.Line.{HasFound, IsLine, check_line, texts_of};
ghost use Rattle.cli_words.specs.declared.command.Check.{Check as Checked};

use crate::Check;
use crate::feed_window::read_feed_window;
use crate::line::read_line;
use clap::ArgMatches;
use lc_model::NoMemory;
use std::alloc::Global;

/// The plain arguments of `check` in their order, and its options.
static PLACES: [&str; 2] = ["feed", "first"];

static OPTIONS: [&str; 3] = ["days", "zone", "change"];

/// What the arguments after `check` say. None exactly where they say no such command.
pub(crate) fn read_check(alloc: Global, words: &[String]) -> Result<Option<Check>, NoMemory>
    ensures { IfOk result (λ check. MatchOption check ((check : Checked) → SaysCheck (texts_of words.now) check → ⊥)
        (SaysCheck (texts_of words.now))) }
{
    match read_line(alloc, "check", &PLACES, &OPTIONS, &[], words)? {
        Some(found) => found_check(alloc, &found),
        None => Ok(None),
    }
}

/// What was found in a line of `check`. None exactly where it says no such command.
fn found_check<'a>(alloc: Global, found: &ArgMatches<'a>) -> Result<Option<Check>, NoMemory>
    ensures { (words : List (List ℕ)) → IsLine check_line words → HasFound check_line words found.now → IfOk result (λ check.
        MatchOption check ((check : Checked) → SaysCheck words check → ⊥) (SaysCheck words)) }
{
    match read_feed_window(alloc, found)? {
        Some(window) => Ok(Some(Check { window })),
        None => Ok(None),
    }
}
