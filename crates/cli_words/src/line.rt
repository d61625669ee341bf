ghost use Rattle.std.specs.Prelude.{◌≡◌, ◌↔◌, All, IfOk, IsTrue, MatchOption, map, true, false};
ghost use Rattle.std.specs.String.{string_bytes};
ghost use Rattle.clap.specs.Words.{app_of, is_simple_and_free, rule_of};
ghost use Rattle.cli_words.specs.Line.{HasFound, IsLine, IsNoDash, flagged, line, named, placed, texts_of};

use clap::error::ErrorKind;
use clap::{Arg, ArgAction, ArgMatches, Command};
use lc_model::{NoMemory, Text};
use std::alloc::Global;

/// A plain argument that has to be in its place.
fn placed_arg<'a>(alloc: Global, name: &'a str) -> Arg<'a>
    ensures rule { rule_of result ≡ placed name.entry.now }
    ensures local { result.global ≡ false }
{
    Arg::new(alloc, name).required(true).action(ArgAction::Set)
}

/// An option with a value.
fn named_arg<'a>(alloc: Global, name: &'a str) -> Arg<'a>
    ensures rule { rule_of result ≡ named name.entry.now }
    ensures local { result.global ≡ false }
{
    Arg::new(alloc, name).long(name).action(ArgAction::Set)
}

/// An option without a value.
fn flagged_arg<'a>(alloc: Global, name: &'a str) -> Arg<'a>
    ensures rule { rule_of result ≡ flagged name.entry.now }
    ensures local { result.global ≡ false }
{
    Arg::new(alloc, name).long(name).action(ArgAction::SetTrue)
}

/// The line of a command with these plain arguments and these options, with a value and without. `clap`'s own help is off.
fn line_of<'a>(
    alloc: Global,
    name: &'a str,
    places: &'a [&'a str],
    options: &'a [&'a str],
    flags: &'a [&'a str],
) -> Result<Command<'a>, NoMemory>
    ensures { IfOk result (λ command. app_of command
        ≡ line name.entry.now (map (λ s. s.now) places.entry.now) (map (λ s. s.now) options.entry.now) (map (λ s. s.now) flags.entry.now)) }
{
    let mut command = Command::new(alloc, name)
        .no_binary_name(true)
        .disable_help_flag(true);
    'places: for place in places {
        command = command.arg(placed_arg(alloc, place))?;
    }
    'options: for option in options {
        command = command.arg(named_arg(alloc, option))?;
    }
    'flags: for flag in flags {
        command = command.arg(flagged_arg(alloc, flag))?;
    }
    Ok(command)
}

/// What the arguments of a line say, or none where they are not of this line. Linear in the arguments, but for each look-up
/// among the few options.
pub(crate) fn read_line<'a>(
    alloc: Global,
    name: &'a str,
    places: &'a [&'a str],
    options: &'a [&'a str],
    flags: &'a [&'a str],
    words: &'a [String],
) -> Result<Option<ArgMatches<'a>>, NoMemory>
    requires { is_simple_and_free (line name.now (map (λ s. s.now) places.now) (map (λ s. s.now) options.now) (map (λ s. s.now) flags.now)) ≡ true }
    ensures { let a = line name.entry.now (map (λ s. s.now) places.entry.now) (map (λ s. s.now) options.entry.now) (map (λ s. s.now) flags.entry.now) in
        IfOk result (λ found. MatchOption found (IsLine a (texts_of words.entry.now) → ⊥) (λ found. IsLine a (texts_of words.entry.now)
        × HasFound a (texts_of words.entry.now) found)) }
{
    if !has_no_dash(words) {
        return Ok(None);
    }
    let command = line_of(alloc, name, places, options, flags)?;
    match command.try_get_matches_from(words) {
        Ok(found) => Ok(Some(found)),
        Err(error) if error.kind() == ErrorKind::OutOfMemory => Err(NoMemory),
        Err(_) => Ok(None),
    }
}

/// Whether no argument is a dash alone. Linear in the arguments.
fn has_no_dash(words: &[String]) -> bool
    ensures { IsTrue result ↔ All (λ word. IsNoDash (string_bytes word)) words.now }
{
    words.iter().all(|word| word.as_str() != "-")
}

/// A text of its own.
pub(crate) fn text_of(alloc: Global, text: &str) -> Result<Text, NoMemory>
    ensures { IfOk result (λ copy. copy ≡ text.now) }
{
    Ok(Text::from_string(String::from_str(alloc, text)?))
}
