ghost use Rattle.std.specs.Prelude.{◌≡◌, ◌≢◌, Err, IfErr, IfOk, None, Ok};
ghost use Rattle.cli_words.specs.Line.{texts_of};
ghost use Rattle.cli_words.specs.Words.{SaysCommand};
ghost use Rattle.cli_words.specs.declared.command.Check.{Check as Said};
ghost use Rattle.cli_words.specs.declared.command.Command.{Command as SaidCommand};
ghost use Rattle.cli_words.specs.declared.command.Command.TheVariants as commands;
ghost use Rattle.cli_words.specs.declared.command.Serve.{Serve as Served};
ghost use Rattle.lc_world.specs.GoneOn.{HasGoneOn};
ghost use Rattle.gtfs_tables.specs.Reading.{Keeps};
ghost use Rattle.lc_cli.specs.Command.{IsCheckBlock, IsRefusedAs, IsRightRefusal, IsRightWork, LeavesLink, ResultsIn};
ghost use Rattle.lc_cli.specs.Scope.{scope_of};
ghost use Rattle.lc_cli.specs.declared.work.Work.TheVariants as works;
ghost use Rattle.cli_replay.specs.Inputs.Inputs.{IsRefusedFor};
ghost use Rattle.cli_replay.specs.declared.inputs.refusal.Refusal.TheVariants.{Load};
ghost use Rattle.timetable.specs.declared.fault.LoadFault.TheVariants.{NoMemory as OutOfMemory};

use crate::block::Block;
use crate::check_text::check_text;
use crate::drill::drill_block;
use crate::plan::{plan_block, relay_block};
use crate::question::{Asking, question_block};
use crate::replay::replay_block;
use crate::scope::scope_of;
use crate::serve::server;
use crate::work::Work;
use cli_replay::Refusal;
use cli_words::{Check, Command, one_command, read_words};
use lc_io::Folder;
use lc_model::NoMemory;
use lc_world::Link;
use std::alloc::Global;
use timetable::{LoadFault, load};

/// What the command of these arguments results in, and the link, as it is left. Nothing is written yet, and nothing is served.
pub(crate) fn outcome<F: Folder, L: Link>(
    alloc: Global,
    words: &[String],
    folder: &mut F,
    link: L,
) -> (Result<Work, Refusal>, L)
    ensures work { IfOk result.0 (IsRightWork (texts_of words.now) (F.seen folder.old) (F.seen folder.new) (L.seen link) (L.seen result.1)) }
    ensures refused { IfErr result.0 (IsRightRefusal (texts_of words.now) (F.seen folder.old) (F.seen folder.new)) }
    ensures kept { Keeps (F.seen folder.old) (F.seen folder.new) }
    ensures check_leaves_link { (check : Said) → SaysCommand (texts_of words.now) (commands.Check check) → result.1 ≡ link }
    ensures serve_leaves_link { (serve : Served) → SaysCommand (texts_of words.now) (commands.Serve serve) → result.1 ≡ link }
    ensures refusal_leaves_link { IfErr result.0 (λ refusal. refusal ≢ Load OutOfMemory → result.1 ≡ link) }
    ensures link { (command : SaidCommand) → SaysCommand (texts_of words.now) command → LeavesLink command (L.seen link) (L.seen result.1) }
    ensures gone_on { HasGoneOn (L.seen link) (L.seen result.1) }
{
    one_command();
    match read_words(alloc, words) {
        Ok(Some(command)) => result_of(alloc, folder, command, link),
        Ok(None) => (Err(Refusal::Usage), link),
        Err(NoMemory) => (Err(Refusal::from(NoMemory)), link),
    }
}

/// What the command results in, and the link, as it is left.
fn result_of<F: Folder, L: Link>(
    alloc: Global,
    folder: &mut F,
    command: Command,
    link: L,
) -> (Result<Work, Refusal>, L)
    ensures work { IfOk result.0 (ResultsIn command (F.seen folder.old) (F.seen folder.new) (L.seen link) (L.seen result.1)) }
    ensures refused { IfErr result.0 (IsRefusedAs command (F.seen folder.old) (F.seen folder.new)) }
    ensures kept { Keeps (F.seen folder.old) (F.seen folder.new) }
    ensures check_leaves_link { (check : Said) → command ≡ commands.Check check → result.1 ≡ link }
    ensures serve_leaves_link { (serve : Served) → command ≡ commands.Serve serve → result.1 ≡ link }
    ensures refusal_leaves_link { IfErr result.0 (λ refusal. refusal ≢ Load OutOfMemory → result.1 ≡ link) }
    ensures link { LeavesLink command (L.seen link) (L.seen result.1) }
{
    match command {
        Command::Check(check) => match check_block(alloc, folder, check) {
            Ok(block) => (Ok(Work::Print(block)), link),
            Err(fault) => (Err(Refusal::Load(fault)), link),
        },
        Command::Ask(ask) => {
            let (query, cache) = (ask.query, ask.cache);
            let asking = Asking::Earliest { query, cache };
            let (block, link) = question_block(alloc, folder, ask.published, asking, link);
            (printed(block), link)
        }
        Command::Replay(replay) => {
            let (block, link) = replay_block(alloc, folder, replay, link);
            (printed(block), link)
        }
        Command::Serve(serve) => match server(alloc, folder, serve) {
            Ok(server) => (Ok(Work::Serve(server)), link),
            Err(refusal) => (Err(refusal), link),
        },
        Command::Plan(plan) => {
            let (block, link) = plan_block(alloc, folder, plan, link);
            (printed(block), link)
        }
        Command::Drill(drill) => {
            let (block, link) = drill_block(alloc, drill, link);
            (printed(block), link)
        }
        Command::Fewest(fewest) => {
            let asking = Asking::Fewest(fewest.query);
            let (block, link) = question_block(alloc, folder, fewest.published, asking, link);
            (printed(block), link)
        }
        Command::Arrive(arrive) => {
            let asking = Asking::Latest(arrive.query);
            let (block, link) = question_block(alloc, folder, arrive.published, asking, link);
            (printed(block), link)
        }
        Command::Relay(relay) => {
            let (block, link) = relay_block(alloc, folder, relay, link);
            (printed(block), link)
        }
    }
}

/// A block as what a command results in.
fn printed(block: Result<Block, Refusal>) -> Result<Work, Refusal>
    ensures work { IfOk block (λ block. result ≡ Ok (works.Print block)) }
    ensures refused { IfErr block (λ refusal. result ≡ Err refusal) }
{
    match block {
        Ok(block) => Ok(Work::Print(block)),
        Err(refusal) => Err(refusal),
    }
}

/// Loads the timetable of a feed, and counts it.
fn check_block<F: Folder>(alloc: Global, folder: &mut F, check: Check) -> Result<Block, LoadFault>
    ensures block { IfOk result (IsCheckBlock check (F.seen folder.old) (F.seen folder.new)) }
    ensures refused { IfErr result (λ fault. IsRefusedFor (scope_of check.window) None (F.seen folder.old) (F.seen folder.new) (Load fault)) }
    ensures kept { Keeps (F.seen folder.old) (F.seen folder.new) }
{
    let scope = scope_of(check.window);
    match load(alloc, folder, &scope) {
        Ok(made) => match check_text(alloc, &made) {
            Ok(text) => Ok(Block {
                text,
                ends: Vec::new(alloc),
            }),
            Err(NoMemory) => Err(LoadFault::NoMemory),
        },
        Err(fault) => Err(fault),
    }
}
