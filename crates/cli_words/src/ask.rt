ghost use Rattle.std.specs.Prelude.{ℕ, IfOk, List, MatchOption};
ghost use Rattle.cli_words.specs.Ask.{SaysAsk};
ghost use Rattle.cli_words.specs.Line.{HasFound, IsLine, ask_line, texts_of};
ghost use Rattle.cli_words.specs.declared.command.Ask.{Ask as Asked};

use crate::Ask;
use crate::cache::read_cache;
use crate::line::read_line;
use crate::published::read_asked;
use crate::question::read_question;
use clap::ArgMatches;
use lc_model::NoMemory;
use std::alloc::Global;

/// The plain arguments of `ask` in their order, and its options.
static PLACES: [&str; 4] = ["feed", "from", "to", "moment"];

static OPTIONS: [&str; 10] = [
    "days",
    "zone",
    "change",
    "horizon",
    "known",
    "base",
    "base-moment",
    "cuts",
    "cache",
    "update",
];

/// What the arguments after `ask` say. None exactly where they say no such command.
pub(crate) fn read_ask(alloc: Global, words: &[String]) -> Result<Option<Ask>, NoMemory>
    ensures { IfOk result (λ ask. MatchOption ask ((ask : Asked) → SaysAsk (texts_of words.now) ask → ⊥)
        (SaysAsk (texts_of words.now))) }
{
    match read_line(alloc, "ask", &PLACES, &OPTIONS, &[], words)? {
        Some(found) => found_ask(alloc, &found),
        None => Ok(None),
    }
}

/// What was found in a line of `ask`. None exactly where it says no such command.
fn found_ask<'a>(alloc: Global, found: &ArgMatches<'a>) -> Result<Option<Ask>, NoMemory>
    ensures { (words : List (List ℕ)) → IsLine ask_line words → HasFound ask_line words found.now → IfOk result (λ ask.
        MatchOption ask ((ask : Asked) → SaysAsk words ask → ⊥) (SaysAsk words)) }
{
    let Some(cache) = read_cache(found) else {
        return Ok(None);
    };
    let Some(query) = read_question(alloc, found)? else {
        return Ok(None);
    };
    match read_asked(alloc, found, query.leave)? {
        Some(published) => Ok(Some(Ask {
            published,
            query,
            cache,
        })),
        None => Ok(None),
    }
}
