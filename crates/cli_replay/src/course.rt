ghost use Rattle.std.specs.Prelude.{◌≤◌, IfOk};
ghost use Rattle.cli_replay.specs.ReplayLaws.Events.{TurnsAreOfClients};
ghost use Rattle.lc_world.specs.GoneOn.{IsLeftByPasses};
ghost use Rattle.cli_replay.specs.Course.{IsPlayed};
ghost use Rattle.cli_replay.specs.Home.{home_seen};

use crate::Replayed;
use crate::ends::ends_of;
use crate::events::play;
use crate::replay_laws::{Event, courses_are_caused};
use crate::text::text_of;
use cli_ask::Heard;
use connection_uri::Base;
use convoy::Convoy;
use fragmenter::Cutting;
use lc_links::HomeLink;
use lc_model::NoMemory;
use lc_world::Link;
use std::alloc::Global;

/// Plays the events by clients under the base, lets each client reach its end, and says what is printed.
pub fn play_out<L: Link>(
    alloc: Global,
    base: Base,
    events: Vec<Event>,
    cache: usize,
    home: &mut HomeLink<Cutting, L>,
) -> Result<Replayed, NoMemory>
    requires some_pages { 1 ≤ cache }
    requires most_pages { cache ≤ 10_000 }
    requires turns { TurnsAreOfClients events.items }
    ensures played { IfOk result (λ replayed. IsPlayed (home_seen L.seen) base events.items cache home.old home.new replayed.admitted replayed.text.items replayed.ends.items) }
    ensures outer { IsLeftByPasses (L.seen home.old.outer) (L.seen home.new.outer) }
{
    courses_are_caused::<HomeLink<Cutting, L>>();
    let mut convoy = Convoy::new(alloc, base, cache)?;
    let heard = play(alloc, &mut convoy, events, home)?;
    let Heard { lines, admitted } = heard;
    convoy.finish(alloc, home)?;
    let ends = ends_of(alloc, convoy)?;
    let text = text_of(alloc, lines, ends.as_slice())?;
    Ok(Replayed {
        text,
        ends,
        admitted,
    })
}
