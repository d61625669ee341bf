ghost use Rattle.std.specs.Prelude.{◌∷◌, IfOk, MatchOption, codes};
ghost use Rattle.cli_words.specs.Words.{IsRead, SaysCommand};
ghost use Rattle.cli_words.specs.Line.{texts_of};
ghost use Rattle.cli_words.specs.declared.command.Command.{Command as Said};

use crate::Command;
use crate::arrive::read_arrive;
use crate::ask::read_ask;
use crate::check::read_check;
use crate::drill::read_drill;
use crate::fewest::read_fewest;
use crate::plan::read_plan;
use crate::relay::read_relay;
use crate::replay::read_replay;
use crate::serve::read_serve;
use lc_model::NoMemory;
use std::alloc::Global;

/// Reads the arguments of a command line, without the program's name. None exactly where they say no command. Linear in
/// the arguments.
pub fn read_words(alloc: Global, words: &[String]) -> Result<Option<Command>, NoMemory>
    ensures { IfOk result (λ read. MatchOption read ((command : Said) → SaysCommand (texts_of words.now) command → ⊥)
        (SaysCommand (texts_of words.now))) }
{
    match words {
        [name, rest @ ..] => read_named(alloc, name.as_str(), rest),
        [] => Ok(None),
    }
}

/// Reads the arguments after the name of a command. None exactly where name and arguments say no command.
fn read_named(alloc: Global, name: &str, words: &[String]) -> Result<Option<Command>, NoMemory>
    ensures { IfOk result (IsRead (name.now ∷ texts_of words.now)) }
{
    match name {
        "check" => check_command(alloc, words),
        "ask" => ask_command(alloc, words),
        "replay" => replay_command(alloc, words),
        "serve" => serve_command(alloc, words),
        "plan" => plan_command(alloc, words),
        "drill" => drill_command(alloc, words),
        "arrive" => arrive_command(alloc, words),
        "fewest" => fewest_command(alloc, words),
        "relay" => relay_command(alloc, words),
        _ => Ok(None),
    }
}

/// The arguments after `check` as a command.
fn check_command(alloc: Global, words: &[String]) -> Result<Option<Command>, NoMemory>
    ensures { IfOk result (IsRead (codes "check" ∷ texts_of words.now)) }
{
    match read_check(alloc, words)? {
        Some(check) => Ok(Some(Command::Check(check))),
        None => Ok(None),
    }
}

/// The arguments after `ask` as a command.
fn ask_command(alloc: Global, words: &[String]) -> Result<Option<Command>, NoMemory>
    ensures { IfOk result (IsRead (codes "ask" ∷ texts_of words.now)) }
{
    match read_ask(alloc, words)? {
        Some(ask) => Ok(Some(Command::Ask(ask))),
        None => Ok(None),
    }
}

/// The arguments after `replay` as a command.
fn replay_command(alloc: Global, words: &[String]) -> Result<Option<Command>, NoMemory>
    ensures { IfOk result (IsRead (codes "replay" ∷ texts_of words.now)) }
{
    match read_replay(alloc, words)? {
        Some(replay) => Ok(Some(Command::Replay(replay))),
        None => Ok(None),
    }
}

/// The arguments after `serve` as a command.
fn serve_command(alloc: Global, words: &[String]) -> Result<Option<Command>, NoMemory>
    ensures { IfOk result (IsRead (codes "serve" ∷ texts_of words.now)) }
{
    match read_serve(alloc, words)? {
        Some(serve) => Ok(Some(Command::Serve(serve))),
        None => Ok(None),
    }
}

/// The arguments after `plan` as a command.
fn plan_command(alloc: Global, words: &[String]) -> Result<Option<Command>, NoMemory>
    ensures { IfOk result (IsRead (codes "plan" ∷ texts_of words.now)) }
{
    match read_plan(alloc, words)? {
        Some(plan) => Ok(Some(Command::Plan(plan))),
        None => Ok(None),
    }
}

/// The arguments after `drill` as a command.
fn drill_command(alloc: Global, words: &[String]) -> Result<Option<Command>, NoMemory>
    ensures { IfOk result (IsRead (codes "drill" ∷ texts_of words.now)) }
{
    match read_drill(alloc, words)? {
        Some(drill) => Ok(Some(Command::Drill(drill))),
        None => Ok(None),
    }
}

/// The arguments after `arrive` as a command.
fn arrive_command(alloc: Global, words: &[String]) -> Result<Option<Command>, NoMemory>
    ensures { IfOk result (IsRead (codes "arrive" ∷ texts_of words.now)) }
{
    match read_arrive(alloc, words)? {
        Some(arrive) => Ok(Some(Command::Arrive(arrive))),
        None => Ok(None),
    }
}

/// The arguments after `fewest` as a command.
fn fewest_command(alloc: Global, words: &[String]) -> Result<Option<Command>, NoMemory>
    ensures { IfOk result (IsRead (codes "fewest" ∷ texts_of words.now)) }
{
    match read_fewest(alloc, words)? {
        Some(fewest) => Ok(Some(Command::Fewest(fewest))),
        None => Ok(None),
    }
}

/// The arguments after `relay` as a command.
fn relay_command(alloc: Global, words: &[String]) -> Result<Option<Command>, NoMemory>
    ensures { IfOk result (IsRead (codes "relay" ∷ texts_of words.now)) }
{
    match read_relay(alloc, words)? {
        Some(relay) => Ok(Some(Command::Relay(relay))),
        None => Ok(None),
    }
}
