ghost use Rattle.std.specs.Prelude.{◌≡◌, ◌↔◌, ℕ, IfOk, IfSome, IsTrue, List, MatchOption, Option, option_map};
ghost use Rattle.clap.specs.Simple.{App};
ghost use Rattle.cli_words.specs.Line.{HasFound};
ghost use Rattle.cli_words.specs.Options.{is_name};
ghost use Rattle.cli_words.specs.Update.{SaysUpdate};

use crate::line::text_of;
use crate::options::is_name;
use clap::ArgMatches;
use lc_model::{NoMemory, Text};
use std::alloc::Global;

/// The name of the file with a message, where the options that were found in a line say one. None where it is said wrongly.
pub(crate) fn read_update<'a>(found: &ArgMatches<'a>) -> Option<Option<&'a str>>
    ensures { (a : App) (words : List (List ℕ)) → HasFound a words found.now
        → MatchOption result ((update : Option (List ℕ)) → SaysUpdate a words update → ⊥)
        (λ update. SaysUpdate a words (option_map (λ s. s.now) update)) }
{
    let update = found.get_str("update");
    if is_named(update) { Some(update) } else { None }
}

/// Whether the option is not there, or says a name.
fn is_named(value: Option<&str>) -> bool
    ensures { IsTrue result ↔ IfSome (option_map (λ s. s.now) value.entry) (λ name. IsTrue (is_name name)) }
{
    match value {
        Some(name) => is_name(name),
        None => true,
    }
}

/// A text of its own, if there is one.
pub(crate) fn copy_of(alloc: Global, text: Option<&str>) -> Result<Option<Text>, NoMemory>
    ensures { IfOk result (λ copy. copy ≡ option_map (λ s. s.now) text.entry) }
{
    match text {
        Some(text) => Ok(Some(text_of(alloc, text)?)),
        None => Ok(None),
    }
}
