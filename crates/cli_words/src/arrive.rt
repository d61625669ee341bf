ghost use Rattle.std.specs.Prelude.{ℕ, IfOk, List, MatchOption};
ghost use Rattle.cli_words.specs.Arrive.{SaysArrive};
ghost use Rattle.cli_words.specs.Line.{HasFound, IsLine, arrive_line, texts_of};
ghost use Rattle.cli_words.specs.declared.command.Arrive.{Arrive as Asked};

use crate::Arrive;
use crate::line::read_line;
use crate::published::read_asked;
use crate::question::read_arrival;
use clap::ArgMatches;
use lc_model::NoMemory;
use std::alloc::Global;

/// The plain arguments of `arrive` in their order, and its options.
static PLACES: [&str; 4] = ["feed", "from", "to", "moment"];

static OPTIONS: [&str; 9] = [
    "days",
    "zone",
    "change",
    "horizon",
    "known",
    "base",
    "base-moment",
    "cuts",
    "update",
];

/// What the arguments after `arrive` say. None exactly where they say no such command.
pub(crate) fn read_arrive(alloc: Global, words: &[String]) -> Result<Option<Arrive>, NoMemory>
    ensures { IfOk result (λ arrive. MatchOption arrive ((arrive : Asked) → SaysArrive (texts_of words.now) arrive → ⊥)
        (SaysArrive (texts_of words.now))) }
{
    match read_line(alloc, "arrive", &PLACES, &OPTIONS, &[], words)? {
        Some(found) => found_arrive(alloc, &found),
        None => Ok(None),
    }
}

/// What was found in a line of `arrive`. None exactly where it says no such command.
fn found_arrive<'a>(alloc: Global, found: &ArgMatches<'a>) -> Result<Option<Arrive>, NoMemory>
    ensures { (words : List (List ℕ)) → IsLine arrive_line words → HasFound arrive_line words found.now → IfOk result (λ arrive.
        MatchOption arrive ((arrive : Asked) → SaysArrive words arrive → ⊥) (SaysArrive words)) }
{
    let Some(query) = read_arrival(alloc, found)? else {
        return Ok(None);
    };
    match read_asked(alloc, found, query.arrive)? {
        Some(published) => Ok(Some(Arrive { published, query })),
        None => Ok(None),
    }
}
