ghost use Rattle.std.specs.Prelude.{◌≡◌, ◌++◌, ◌∷◌, [], ℕ, IfOk, List, MatchOption, OnOk};
ghost use Rattle.cli_words.specs.Drill.{SaysDrill, drilled_words};
ghost use Rattle.cli_words.specs.Line.{HasFound, IsLine, drill_line, texts_of};
ghost use Rattle.cli_words.specs.Replay.{SaysReplay};
ghost use Rattle.cli_words.specs.declared.command.Drill.{Drill as Drilled};

use crate::line::read_line;
use crate::options::{number, required};
use crate::replay::read_replay;
use crate::{Drill, Replay};
use clap::ArgMatches;
use lc_model::NoMemory;
use std::alloc::Global;

/// The plain argument of `drill`, and its option.
static PLACES: [&str; 1] = ["n"];

static OPTIONS: [&str; 1] = ["days"];

/// What the arguments after `drill` say. None exactly where they say no such command.
pub(crate) fn read_drill(alloc: Global, words: &[String]) -> Result<Option<Drill>, NoMemory>
    ensures { IfOk result (λ drill. MatchOption drill ((drill : Drilled) → SaysDrill (texts_of words.now) drill → ⊥)
        (SaysDrill (texts_of words.now))) }
{
    match read_line(alloc, "drill", &PLACES, &OPTIONS, &[], words)? {
        Some(found) => Ok(found_drill(&found)),
        None => Ok(None),
    }
}

/// What was found in a line of `drill`. None exactly where it says no such command.
fn found_drill<'a>(found: &ArgMatches<'a>) -> Option<Drill>
    ensures { (words : List (List ℕ)) → IsLine drill_line words → HasFound drill_line words found.now →
        MatchOption result ((drill : Drilled) → SaysDrill words drill → ⊥) (SaysDrill words) }
{
    let seed = required(found.get_str("n"), 1, 1_000_000)?;
    let days = number(found.get_str("days"), 1, 1, 7)?;
    Some(Drill { seed, days })
}

/// The replay that a drill plays: `replay feed 20240501 script.csv --days D`, with every other option by default.
pub fn drilled_replay(alloc: Global, drill: &Drill) -> Result<Replay, NoMemory>
    ensures { IfOk result (SaysReplay (drilled_words drill.now.days)) }
{
    let days = drill.days;
    let words = drilled_words(alloc, days)?;
    match read_replay(alloc, words.as_slice())? {
        Some(replay) => Ok(replay),
        None => unreachable!(),
    }
}

/// The arguments of that replay, without its name.
fn drilled_words(alloc: Global, days: u32) -> Result<Vec<String>, NoMemory>
    ensures { IfOk result (λ words. texts_of words.items ≡ drilled_words days) }
{
    let mut words = Vec::with_capacity(alloc, 5)?;
    push_word(alloc, &mut words, "feed")?;
    push_word(alloc, &mut words, "20240501")?;
    push_word(alloc, &mut words, "script.csv")?;
    push_word(alloc, &mut words, "--days")?;
    words.push(format!(in alloc; "{days}")?)?;
    Ok(words)
}

fn push_word(alloc: Global, words: &mut Vec<String>, word: &str) -> Result<(), NoMemory>
    ensures { OnOk result (texts_of words.new.items ≡ texts_of words.old.items ++ word.now ∷ []) }
{
    words.push(String::from_str(alloc, word)?)?;
    Ok(())
}
