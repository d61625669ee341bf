ghost use Rattle.std.specs.Prelude.{◌≡◌, ◌≤◌, ℕ, IfOk, IfSome, List, MatchOption};
ghost use Rattle.cli_words.specs.Line.{HasFound, IsLine, relay_line, texts_of};
ghost use Rattle.cli_words.specs.Relay.{SaysRelay, entries_said};
ghost use Rattle.cli_words.specs.declared.command.Relay.{Relay as Relayed};

use crate::Relay;
use crate::cache::read_cache;
use crate::line::{read_line, text_of};
use crate::options::number;
use crate::publishing::read_base;
use clap::ArgMatches;
use lc_model::NoMemory;
use std::alloc::Global;

/// The plain arguments of `relay` in their order, and its options.
static PLACES: [&str; 2] = ["url", "asks"];

static OPTIONS: [&str; 2] = ["cache", "entries"];

/// What the arguments after `relay` say. None exactly where they say no such command.
pub(crate) fn read_relay(alloc: Global, words: &[String]) -> Result<Option<Relay>, NoMemory>
    ensures { IfOk result (λ relay. MatchOption relay ((relay : Relayed) → SaysRelay (texts_of words.now) relay → ⊥)
        (SaysRelay (texts_of words.now))) }
{
    match read_line(alloc, "relay", &PLACES, &OPTIONS, &[], words)? {
        Some(found) => found_relay(alloc, &found),
        None => Ok(None),
    }
}

/// How many documents the options of a line let a relay keep at most, or none where that is said wrongly.
fn read_entries<'a>(found: &ArgMatches<'a>) -> Option<u32>
    ensures said { (words : List (List ℕ)) → HasFound relay_line words found.now → result ≡ entries_said words }
    ensures some_entries { IfSome result (λ entries. 1 ≤ entries) }
    ensures most_entries { IfSome result (λ entries. entries ≤ 1_000) }
{
    number(found.get_str("entries"), 100, 1, 1_000)
}

/// What was found in a line of `relay`. None exactly where it says no such command.
fn found_relay<'a>(alloc: Global, found: &ArgMatches<'a>) -> Result<Option<Relay>, NoMemory>
    ensures { (words : List (List ℕ)) → IsLine relay_line words → HasFound relay_line words found.now → IfOk result (λ relay.
        MatchOption relay ((relay : Relayed) → SaysRelay words relay → ⊥) (SaysRelay words)) }
{
    let Some(url) = found.get_str("url") else {
        return Ok(None);
    };
    let Some(asks) = found.get_str("asks") else {
        return Ok(None);
    };
    let Some(cache) = read_cache(found) else {
        return Ok(None);
    };
    let Some(entries) = read_entries(found) else {
        return Ok(None);
    };
    match read_base(alloc, url)? {
        Some(base) => Ok(Some(Relay {
            base,
            asks: text_of(alloc, asks)?,
            cache,
            entries,
        })),
        None => Ok(None),
    }
}
