ghost use Rattle.std.specs.Prelude.{◌≡◌, ◌≢◌, IfErr, IfOk, false};
ghost use Rattle.cli_replay.specs.Inputs.Script.{IsScriptRefused};
ghost use Rattle.cli_replay.specs.declared.inputs.refusal.Refusal.TheVariants.{Load};
ghost use Rattle.gtfs_tables.specs.Reading.{Keeps};
ghost use Rattle.lc_world.specs.GoneOn.{IsLeftByGets};
ghost use Rattle.timetable.specs.declared.fault.LoadFault.TheVariants.{NoMemory as OutOfMemory};
ghost use Rattle.lc_cli.specs.Command.{IsPlanBlock, IsRelayBlock};

use crate::block::Block;
use cli_replay::{Planned, Refusal, read_plan};
use cli_words::{Plan, Relay};
use lc_io::Folder;
use lc_model::NoMemory;
use lc_world::Link;
use std::alloc::Global;

/// Reads questions and turns, and lets the clients ask over the link.
pub(crate) fn plan_block<F: Folder, L: Link>(
    alloc: Global,
    folder: &mut F,
    plan: Plan,
    link: L,
) -> (Result<Block, Refusal>, L)
    ensures block { IfOk result.0 (IsPlanBlock plan (F.seen folder.old) (F.seen folder.new) (L.seen link) (L.seen result.1)) }
    ensures refused { IfErr result.0 (IsScriptRefused false plan.asks (F.seen folder.old) (F.seen folder.new)) }
    ensures kept { Keeps (F.seen folder.old) (F.seen folder.new) }
    ensures refusal_leaves_link { IfErr result.0 (λ refusal. refusal ≢ Load OutOfMemory → result.1 ≡ link) }
    ensures left { IsLeftByGets (L.seen link) (L.seen result.1) }
{
    let Plan {
        base,
        asks,
        cache,
        ..
    } = plan;
    match read_plan(alloc, folder, asks) {
        Ok(events) => {
            let (planned, link) = cli_replay::plan(alloc, base, events, cache as usize, link);
            match planned {
                Ok(Planned { text, ends }) => (Ok(Block { text, ends }), link),
                Err(NoMemory) => (Err(Refusal::from(NoMemory)), link),
            }
        }
        Err(refusal) => (Err(refusal), link),
    }
}

/// Reads questions and turns, and lets the clients ask over a relay of the link.
pub(crate) fn relay_block<F: Folder, L: Link>(
    alloc: Global,
    folder: &mut F,
    relay: Relay,
    link: L,
) -> (Result<Block, Refusal>, L)
    ensures block { IfOk result.0 (IsRelayBlock relay (F.seen folder.old) (F.seen folder.new) (L.seen link) (L.seen result.1)) }
    ensures refused { IfErr result.0 (IsScriptRefused false relay.asks (F.seen folder.old) (F.seen folder.new)) }
    ensures kept { Keeps (F.seen folder.old) (F.seen folder.new) }
    ensures refusal_leaves_link { IfErr result.0 (λ refusal. refusal ≢ Load OutOfMemory → result.1 ≡ link) }
    ensures left { IsLeftByGets (L.seen link) (L.seen result.1) }
{
    let Relay {
        base,
        asks,
        cache,
        entries,
        ..
    } = relay;
    match read_plan(alloc, folder, asks) {
        Ok(events) => {
            let (planned, link) = cli_replay::relay(
                alloc,
                base,
                events,
                cache as usize,
                entries as usize,
                link,
            );
            match planned {
                Ok(Planned { text, ends }) => (Ok(Block { text, ends }), link),
                Err(NoMemory) => (Err(Refusal::from(NoMemory)), link),
            }
        }
        Err(refusal) => (Err(refusal), link),
    }
}
