ghost use Rattle.std.specs.Prelude.{ℕ, IfOk, List, MatchOption};
ghost use Rattle.cli_words.specs.Fewest.{SaysFewest};
ghost use Rattle.cli_words.specs.Line.{HasFound, IsLine, fewest_line, texts_of};
ghost use Rattle.cli_words.specs.declared.command.Fewest.{Fewest as Asked};

use crate::Fewest;
use crate::line::read_line;
use crate::published::read_asked;
use crate::question::read_question;
use clap::ArgMatches;
use lc_model::NoMemory;
use std::alloc::Global;

/// The plain arguments of `fewest` in their order, and its options.
static PLACES: [&str; 4] = ["feed", "from", "to", "moment"];

static OPTIONS: [&str; 9] = [
    "days",
    "zone",
    "change",
    "horizon",
    "known",
    "base",
    "base-moment",
    "cuts",
    "update",
];

/// What the arguments after `fewest` say. None exactly where they say no such command.
pub(crate) fn read_fewest(alloc: Global, words: &[String]) -> Result<Option<Fewest>, NoMemory>
    ensures { IfOk result (λ fewest. MatchOption fewest ((fewest : Asked) → SaysFewest (texts_of words.now) fewest → ⊥)
        (SaysFewest (texts_of words.now))) }
{
    match read_line(alloc, "fewest", &PLACES, &OPTIONS, &[], words)? {
        Some(found) => found_fewest(alloc, &found),
        None => Ok(None),
    }
}

/// What was found in a line of `fewest`. None exactly where it says no such command.
fn found_fewest<'a>(alloc: Global, found: &ArgMatches<'a>) -> Result<Option<Fewest>, NoMemory>
    ensures { (words : List (List ℕ)) → IsLine fewest_line words → HasFound fewest_line words found.now → IfOk result (λ fewest.
        MatchOption fewest ((fewest : Asked) → SaysFewest words fewest → ⊥) (SaysFewest words)) }
{
    let Some(query) = read_question(alloc, found)? else {
        return Ok(None);
    };
    match read_asked(alloc, found, query.leave)? {
        Some(published) => Ok(Some(Fewest { published, query })),
        None => Ok(None),
    }
}
