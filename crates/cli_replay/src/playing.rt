ghost use Rattle.std.specs.Prelude.{◌≡◌, [], ◌≤◌, IfOk, OnOk};
ghost use Rattle.cli_ask.specs.Publishing.{held_with, side_with, store_of};
ghost use Rattle.lc_world.specs.GoneOn.{IsLeftByPasses};
ghost use Rattle.lc_world.specs.Sides.Side.{IsValidSide};
ghost use Rattle.cli_replay.specs.ReplayLaws.Events.{TurnsAreOfClients};
ghost use Rattle.cli_replay.specs.ReplayLaws.Replayed.{IsReplayed};
ghost use Rattle.cli_replay.specs.ReplayLaws.Versions.{HaveAdmitted};

use crate::course::play_out;
use crate::replay_laws::{Event, courses_are_caused, courses_are_heard, courses_are_right};
use cli_ask::{ClientEnd, publisher_of};
use cli_words::Publishing;
use connection_uri::Base;
use fragmenter::Cutting;
use lc_links::{HomeLink, LocalLink};
use lc_model::{NoMemory, PlainData};
use lc_world::Link;
use std::alloc::Global;
use timetable::Timetable;

/// What is printed of an event sequence, and how its clients ended, in the order in which they asked. How many of its messages were
/// admitted.
#[derive(Drop)]
pub struct Replayed {
    pub text: Vec<u8>,
    pub ends: Vec<ClientEnd>,
    pub admitted: usize,
}

/// A link to a publisher, and its base again.
#[derive(Drop)]
struct Prepared {
    local: LocalLink<Cutting>,
    base: Base,
}

/// Publishes a timetable and plays an event sequence to the publisher. Clients ask, messages arrive, and clients have turns. After it each
/// client is turned until it ends. Each reply is handed on over the link, which is given back. The clients share a cache of so many pages
/// at most.
pub fn replay<L: Link>(
    alloc: Global,
    made: Timetable,
    publishing: Publishing,
    events: Vec<Event>,
    cache: usize,
    link: L,
) -> (Result<Replayed, NoMemory>, L)
    requires some_pages { 1 ≤ cache }
    requires most_pages { cache ≤ 10_000 }
    requires turns { TurnsAreOfClients events.items }
    ensures replayed { IfOk result.0 (λ replayed. IsReplayed made publishing events.items cache (L.seen link) (L.seen result.1) replayed.text.items replayed.ends.items) }
    ensures admitted { IfOk result.0 (λ replayed. HaveAdmitted made publishing events.items replayed.admitted) }
    ensures left { IsLeftByPasses (L.seen link) (L.seen result.1) }
{
    courses_are_heard::<HomeLink<Cutting, L>>();
    courses_are_right::<HomeLink<Cutting, L>>();
    courses_are_caused::<HomeLink<Cutting, L>>();
    match prepare(alloc, made, publishing) {
        Ok(prepared) => {
            let Prepared { local, base } = prepared;
            let mut home = HomeLink::new(local, link);
            let replayed = play_out(alloc, base, events, cache, &mut home);
            (replayed, home.into_outer())
        }
        Err(NoMemory) => (Err(NoMemory), link),
    }
}

/// A link to a publisher of the timetable, which has heard nothing.
fn prepare(alloc: Global, made: Timetable, publishing: Publishing) -> Result<Prepared, NoMemory>
    ensures base { IfOk result (λ prepared. prepared.base ≡ publishing.base) }
    ensures held { IfOk result (λ prepared. prepared.local.publisher ≡ held_with made publishing (store_of made publishing.base_moment)) }
    ensures valid { OnOk result (IsValidSide (side_with made publishing (store_of made publishing.base_moment))) }
{
    let base = publishing.base.copy(alloc)?;
    let publisher = publisher_of(alloc, made, publishing)?;
    publisher.side_is_valid();
    let local = LocalLink::new(alloc, publisher)?;
    Ok(Prepared { local, base })
}
