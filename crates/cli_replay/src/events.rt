ghost use Rattle.std.specs.Prelude.{◌≡◌, ◌+◌, [], ◌∷◌, ◌++◌, length, IfOk, OnOk};
ghost use Rattle.lc_world.specs.GoneOn.{IsLeftByPasses};
ghost use Rattle.cli_replay.specs.ReplayLaws.Events.{TurnsAreOfClients};
ghost use Rattle.cli_replay.specs.ReplayLaws.Played.{Plays};
ghost use Rattle.cli_replay.specs.Home.{admitted_at, home_seen};
ghost use Rattle.cli_replay.specs.Turns.{MayHappen};

use crate::hearing::hear;
use crate::replay_laws::Event;
use cli_ask::Heard;
use convoy::Convoy;
use fragmenter::Cutting;
use lc_links::HomeLink;
use lc_model::NoMemory;
use lc_world::Link;
use std::alloc::Global;

/// Plays the events, one after the other. It gives the lines of the messages, and counts those that are admitted.
pub fn play<L: Link>(
    alloc: Global,
    convoy: &mut Convoy,
    events: Vec<Event>,
    home: &mut HomeLink<Cutting, L>,
) -> Result<Heard, NoMemory>
    requires none_yet { convoy.old.members ≡ [] }
    requires turns { TurnsAreOfClients events.items }
    ensures plays { IfOk result (λ heard. Plays (home_seen L.seen) events.items convoy.old convoy.new home.old home.new heard.lines.items) }
    ensures admitted { IfOk result (λ heard. admitted_at home.new ≡ admitted_at home.old + heard.admitted) }
    ensures outer { IsLeftByPasses (L.seen home.old.outer) (L.seen home.new.outer) }
{
    let lines = Vec::new(alloc);
    let mut heard = Heard { lines, admitted: 0 };
    'events: for event in events {
        let one = play_one(alloc, convoy, event, home)?;
        add(&mut heard, &one)?;
    }
    Ok(heard)
}

/// Adds what became of one event more. A count that the machine does not hold is taken for running out of memory.
fn add(heard: &mut Heard, one: &Heard) -> Result<(), NoMemory>
    ensures lines { OnOk result (heard.new.lines.items ≡ heard.old.lines.items ++ one.now.lines.items) }
    ensures admitted { OnOk result (heard.new.admitted ≡ heard.old.admitted + one.now.admitted) }
{
    let Some(admitted) = heard.admitted.checked_add(one.admitted) else {
        return Err(NoMemory);
    };
    heard.admitted = admitted;
    heard.lines.extend_from_slice(one.lines.as_slice())?;
    Ok(())
}

/// Plays one event. If it is a message it gives its line, and counts it where it is admitted.
fn play_one<L: Link>(
    alloc: Global,
    convoy: &mut Convoy,
    event: Event,
    home: &mut HomeLink<Cutting, L>,
) -> Result<Heard, NoMemory>
    requires { MayHappen (length convoy.old.members) event }
    ensures plays { IfOk result (λ heard. Plays (home_seen L.seen) (event ∷ []) convoy.old convoy.new home.old home.new heard.lines.items) }
    ensures admitted { IfOk result (λ heard. admitted_at home.new ≡ admitted_at home.old + heard.admitted) }
    ensures outer { IsLeftByPasses (L.seen home.old.outer) (L.seen home.new.outer) }
{
    match event {
        Event::Ask(query) => {
            convoy.ask(query)?;
            Ok(Heard {
                lines: Vec::new(alloc),
                admitted: 0,
            })
        }
        Event::Message(message) => {
            let heard = hear(alloc, &message, home)?;
            Ok(heard)
        }
        Event::Turn(client) => {
            convoy.turn(alloc, client as usize, home)?;
            Ok(Heard {
                lines: Vec::new(alloc),
                admitted: 0,
            })
        }
    }
}
