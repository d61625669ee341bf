ghost use Rattle.std.specs.Prelude.{ℕ, IfOk, List, MatchOption};
ghost use Rattle.cli_words.specs.Line.{HasFound, IsLine, replay_line, texts_of};
ghost use Rattle.cli_words.specs.Replay.{SaysReplay};
ghost use Rattle.cli_words.specs.declared.command.Replay.{Replay as Replayed};

use crate::Replay;
use crate::cache::read_cache;
use crate::feed_window::read_feed_window;
use crate::line::{read_line, text_of};
use crate::publishing::{EXAMPLE, read_publishing};
use clap::ArgMatches;
use lc_model::NoMemory;
use std::alloc::Global;

/// The plain arguments of `replay` in their order, and its options.
static PLACES: [&str; 3] = ["feed", "first", "script"];

static OPTIONS: [&str; 7] = [
    "days",
    "zone",
    "change",
    "base",
    "base-moment",
    "cuts",
    "cache",
];

/// What the arguments after `replay` say. None exactly where they say no such command.
pub(crate) fn read_replay(alloc: Global, words: &[String]) -> Result<Option<Replay>, NoMemory>
    ensures { IfOk result (λ replay. MatchOption replay ((replay : Replayed) → SaysReplay (texts_of words.now) replay → ⊥)
        (SaysReplay (texts_of words.now))) }
{
    match read_line(alloc, "replay", &PLACES, &OPTIONS, &[], words)? {
        Some(found) => found_replay(alloc, &found),
        None => Ok(None),
    }
}

/// What was found in a line of `replay`. None exactly where it says no such command.
fn found_replay<'a>(alloc: Global, found: &ArgMatches<'a>) -> Result<Option<Replay>, NoMemory>
    ensures { (words : List (List ℕ)) → IsLine replay_line words → HasFound replay_line words found.now → IfOk result (λ replay.
        MatchOption replay ((replay : Replayed) → SaysReplay words replay → ⊥) (SaysReplay words)) }
{
    let Some(script) = found.get_str("script") else {
        return Ok(None);
    };
    let Some(cache) = read_cache(found) else {
        return Ok(None);
    };
    let Some(publishing) = read_publishing(alloc, found, EXAMPLE)? else {
        return Ok(None);
    };
    match read_feed_window(alloc, found)? {
        Some(window) => Ok(Some(Replay {
            window,
            publishing,
            cache,
            script: text_of(alloc, script)?,
        })),
        None => Ok(None),
    }
}
