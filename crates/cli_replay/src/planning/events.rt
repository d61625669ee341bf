ghost use Rattle.std.specs.Prelude.{◌≡◌, [], ◌∷◌, length, OnOk};
ghost use Rattle.cli_replay.specs.Turns.{MayHappen};
ghost use Rattle.cli_replay.specs.PlanLaws.Planned.{IsNoMessage, NoneIsMessage};
ghost use Rattle.cli_replay.specs.ReplayLaws.Events.{TurnsAreOfClients};
ghost use Rattle.cli_replay.specs.ReplayLaws.Played.{Plays};
ghost use Rattle.lc_world.specs.GoneOn.{IsLeftByGets};

use crate::Event;
use convoy::Convoy;
use lc_model::NoMemory;
use lc_world::Link;
use std::alloc::Global;

/// Lets the events happen, one after the other.
pub fn happen<L: Link>(
    alloc: Global,
    convoy: &mut Convoy,
    events: Vec<Event>,
    link: &mut L,
) -> Result<(), NoMemory>
    requires none_yet { convoy.old.members ≡ [] }
    requires turns { TurnsAreOfClients events.items }
    requires no_messages { NoneIsMessage events.items }
    ensures plays { OnOk result (Plays L.seen events.items convoy.old convoy.new link.old link.new []) }
    ensures left { IsLeftByGets (L.seen link.old) (L.seen link.new) }
{
    'events: for event in events {
        happen_one(alloc, convoy, event, link)?;
    }
    Ok(())
}

/// A client asks or has its turn.
fn happen_one<L: Link>(
    alloc: Global,
    convoy: &mut Convoy,
    event: Event,
    link: &mut L,
) -> Result<(), NoMemory>
    requires may_happen { MayHappen (length convoy.old.members) event }
    requires no_message { IsNoMessage event }
    ensures plays { OnOk result (Plays L.seen (event ∷ []) convoy.old convoy.new link.old link.new []) }
    ensures left { IsLeftByGets (L.seen link.old) (L.seen link.new) }
{
    match event {
        Event::Ask(query) => {
            convoy.ask(query)?;
            Ok(())
        }
        Event::Turn(client) => {
            convoy.turn(alloc, client as usize, link)?;
            Ok(())
        }
        Event::Message(_) => unreachable!(),
    }
}
