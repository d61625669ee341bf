ghost use Rattle.std.specs.Prelude.{◌≡◌, ◌≤◌, IfOk};
ghost use Rattle.std.specs.List.{All};
ghost use Rattle.cli_ask.specs.Block.{IsPrintable};
ghost use Rattle.cli_ask.specs.declared.end.ClientEnd.{ClientEnd as End};
ghost use Rattle.cli_replay.specs.Planning.Planning.{HaveHappened};
ghost use Rattle.cli_replay.specs.PlanLaws.Planned.{IsPlanned, NoneIsMessage};
ghost use Rattle.cli_replay.specs.ReplayLaws.Events.{TurnsAreOfClients};
ghost use Rattle.cli_replay.specs.ReplayLaws.Replayed.{clients_text_of};
ghost use Rattle.lc_world.specs.GoneOn.{IsLeftByGets};

use crate::planning::events::happen;
use crate::{Event, courses_are_caused, ends_of, plan_records_replies, plans_are_right, text_of};
use cli_ask::ClientEnd;
use connection_uri::Base;
use convoy::Convoy;
use lc_model::NoMemory;
use lc_world::Link;
use std::alloc::Global;

/// What is printed of clients, and how they ended, in the order in which they asked.
#[derive(Drop)]
pub struct Planned {
    pub text: Vec<u8>,
    pub ends: Vec<ClientEnd>,
}

/// Lets clients ask the publisher at the other end of a link. Each asks and has its turns as the events say, and then is turned until it
/// ends. Each exchange is made over the link, which is given back. Where memory runs out some were made. The clients share a cache of so
/// many pages at most. A client makes at most `horizon + 3` exchanges.
pub fn plan<L: Link>(
    alloc: Global,
    base: Base,
    events: Vec<Event>,
    cache: usize,
    link: L,
) -> (Result<Planned, NoMemory>, L)
    requires some_pages { 1 ≤ cache }
    requires most_pages { cache ≤ 10_000 }
    requires turns { TurnsAreOfClients events.items }
    requires no_messages { NoneIsMessage events.items }
    ensures planned { IfOk result.0 (λ planned. IsPlanned base events.items cache (L.seen link) (L.seen result.1) planned.text.items planned.ends.items) }
    ensures left { IsLeftByGets (L.seen link) (L.seen result.1) }
{
    plans_are_right::<L>();
    plan_records_replies::<L>();
    courses_are_caused::<L>();
    let mut link = link;
    match ends_over(alloc, base, events, cache, &mut link) {
        Ok(ends) => (printed(alloc, ends), link),
        Err(NoMemory) => (Err(NoMemory), link),
    }
}

/// Lets the events happen over a link, turns each client until it ends, and says how each ended.
fn ends_over<L: Link>(
    alloc: Global,
    base: Base,
    events: Vec<Event>,
    cache: usize,
    link: &mut L,
) -> Result<Vec<ClientEnd>, NoMemory>
    requires some_pages { 1 ≤ cache }
    requires most_pages { cache ≤ 10_000 }
    requires turns { TurnsAreOfClients events.items }
    requires no_messages { NoneIsMessage events.items }
    ensures happened { IfOk result (λ ends. HaveHappened L.seen base events.items cache link.old link.new ends.items) }
    ensures left { IsLeftByGets (L.seen link.old) (L.seen link.new) }
{
    let mut convoy = Convoy::new(alloc, base, cache)?;
    happen(alloc, &mut convoy, events, link)?;
    convoy.finish(alloc, link)?;
    ends_of(alloc, convoy)
}

/// What is printed of clients that ended so. Linear in the text.
fn printed(alloc: Global, ends: Vec<ClientEnd>) -> Result<Planned, NoMemory>
    requires { All (λ (end : End). IsPrintable end.outcome) ends.items }
    ensures text { IfOk result (λ planned. planned.text.items ≡ clients_text_of 1 ends.items) }
    ensures ends { IfOk result (λ planned. planned.ends ≡ ends) }
{
    let text = text_of(alloc, Vec::new(alloc), ends.as_slice())?;
    Ok(Planned { text, ends })
}
