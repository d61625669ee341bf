ghost use Rattle.std.specs.Prelude.{◌≡◌, ◌≢◌, ◌++◌, ℕ, IfOk, List, MatchOption};
ghost use Rattle.clap.specs.Simple.{App};
ghost use Rattle.fragmenter.specs.declared.cutting.Cutting.{Cutting as Way};
ghost use Rattle.connection_uri.specs.Base.{BaseParts};
ghost use Rattle.cli_words.specs.Line.{HasFound};
ghost use Rattle.cli_words.specs.Publishing.{SaysBase, SaysBehind, SaysCutting, SaysPublishingOr};
ghost use Rattle.cli_words.specs.declared.command.Publishing.{Publishing as Published};

use crate::Publishing;
use crate::options::{bounded, text_or};
use clap::ArgMatches;
use connection_uri::Base;
use fragmenter::{ByCount, BySpan, Cutting, LONGEST_SPAN, MOST_CONNECTIONS};
use lc_model::NoMemory;
use lc_time::read_iso;
use std::alloc::Global;

/// The base of an in-process publisher where the arguments say none.
pub(crate) const EXAMPLE: &str = "http://lc.example/";

/// How a timetable is published by the options that were found in a line, with this base where they say none. None where one of them is
/// said wrongly.
pub(crate) fn read_publishing<'a>(
    alloc: Global,
    found: &ArgMatches<'a>,
    default_base: &str,
) -> Result<Option<Publishing>, NoMemory>
    ensures { (a : App) (words : List (List ℕ)) → HasFound a words found.now → IfOk result (λ publishing.
        MatchOption publishing ((publishing : Published) → SaysPublishingOr default_base.now a words publishing → ⊥)
        (SaysPublishingOr default_base.now a words)) }
{
    let base_moment = text_or(found.get_str("base-moment"), "1970-01-01T00:00:00Z");
    let Some(base_moment) = read_iso(base_moment.as_bytes()) else {
        return Ok(None);
    };
    let cutting = text_or(found.get_str("cuts"), "span:1800");
    let Some(cutting) = read_cutting(cutting.as_bytes()) else {
        return Ok(None);
    };
    let base = text_or(found.get_str("base"), default_base);
    let Some(base) = read_base(alloc, base)? else {
        return Ok(None);
    };
    Ok(Some(Publishing {
        base,
        base_moment,
        cutting,
    }))
}

/// The base that a text says.
pub(crate) fn read_base(alloc: Global, text: &str) -> Result<Option<Base>, NoMemory>
    ensures { IfOk result (λ base. MatchOption base ((base : BaseParts) → SaysBase text.now base → ⊥) (SaysBase text.now)) }
{
    Base::read(alloc, text.as_bytes())
}

/// The way to cut that a text says.
fn read_cutting(text: &[u8]) -> Option<Cutting>
    ensures { MatchOption result ((cutting : Way) → SaysCutting text.now cutting → ⊥) (SaysCutting text.now) }
{
    if text == b"whole".as_slice() {
        return Some(Cutting::Whole);
    }
    if let Some(seconds) = number_behind(text, b"span:", 1, LONGEST_SPAN) {
        return Some(Cutting::Span(BySpan { seconds }));
    }
    match number_behind(text, b"count:", 1, MOST_CONNECTIONS) {
        Some(count) => Some(Cutting::Count(ByCount { count })),
        None => None,
    }
}

/// The number that the text says after this front, if it is between these.
fn number_behind(text: &[u8], front: &[u8], low: u32, high: u32) -> Option<u32>
    ensures { MatchOption result ((number : ℕ) → SaysBehind front.now low high text.now number → ⊥)
        (SaysBehind front.now low high text.now) }
{
    let Some(digits) = behind(text, front) else {
        return None;
    };
    match bounded(digits, low, high) {
        Some(number) => Some(number),
        None => None,
    }
}

/// What follows this front in the text, if the text begins with it.
fn behind<'a>(text: &'a [u8], front: &[u8]) -> Option<&'a [u8]>
    ensures { MatchOption result ((rest : List ℕ) → text.now ≢ front.now ++ rest) (λ rest. text.now ≡ front.now ++ rest.now) }
{
    text.strip_prefix(front)
}
