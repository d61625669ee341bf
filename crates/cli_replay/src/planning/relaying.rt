ghost use Rattle.std.specs.Prelude.{◌≡◌, ◌≤◌, ◌++◌, IfOk, OnOk, true};
ghost use Rattle.cli_replay.specs.Planning.Relayed.{IsRelayed, counts_line_of};
ghost use Rattle.cli_replay.specs.Planning.RelayedBy.{IsLeftBelow, IsRelayedBy};
ghost use Rattle.cli_replay.specs.PlanLaws.Planned.{NoneIsMessage};
ghost use Rattle.cli_replay.specs.ReplayLaws.Events.{TurnsAreOfClients};
ghost use Rattle.lc_world.specs.GoneOn.{IsLeftByGets};

use crate::Event;
use crate::planning::planning::{Planned, plan};
use connection_uri::Base;
use lc_model::{NoMemory, PlainData};
use lc_world::Link;
use page_relay::{Relay, counts_are_since, relays_leave_below};
use std::alloc::Global;

/// Lets clients ask as `plan` does, over a relay of the link that keeps so many replies at most. After their blocks comes a line with how many
/// exchanges they made, and how many of these were handed on to the link, which is given back.
pub fn relay<L: Link>(
    alloc: Global,
    base: Base,
    events: Vec<Event>,
    cache: usize,
    entries: usize,
    link: L,
) -> (Result<Planned, NoMemory>, L)
    requires some_pages { 1 ≤ cache }
    requires most_pages { cache ≤ 10_000 }
    requires some_entries { 1 ≤ entries }
    requires most_entries { entries ≤ 1_000 }
    requires turns { TurnsAreOfClients events.items }
    requires no_messages { NoneIsMessage events.items }
    ensures relayed { IfOk result.0 (λ planned. IsRelayed base events.items cache entries (L.seen link) (L.seen result.1) planned.text.items planned.ends.items) }
    ensures left { IsLeftByGets (L.seen link) (L.seen result.1) }
{
    counts_are_since::<L>();
    relays_leave_below::<L>();
    match base.copy(alloc) {
        Ok(own) => match Relay::new(alloc, link, own, entries) {
            Ok(relay) => plan_over(alloc, base, events, cache, relay),
            Err(link) => (Err(NoMemory), link),
        },
        Err(NoMemory) => (Err(NoMemory), link),
    }
}

/// Lets clients ask over a relay, and takes the link out of it.
fn plan_over<L: Link>(
    alloc: Global,
    base: Base,
    events: Vec<Event>,
    cache: usize,
    relay: Relay<L>,
) -> (Result<Planned, NoMemory>, L)
    requires some_pages { 1 ≤ cache }
    requires most_pages { cache ≤ 10_000 }
    requires turns { TurnsAreOfClients events.items }
    requires no_messages { NoneIsMessage events.items }
    ensures relayed { IfOk result.0 (λ planned. IsRelayedBy L.seen base events.items cache relay result.1 planned.text.items planned.ends.items) }
    ensures left { IsLeftBelow L.seen relay result.1 }
{
    let (planned, relay) = plan(alloc, base, events, cache, relay);
    let exact = relay.is_exact();
    let relayed = relay.relayed();
    let forwarded = relay.forwarded();
    let link = relay.into_inner();
    match planned {
        Ok(planned) => (with_counts(alloc, planned, exact, relayed, forwarded), link),
        Err(NoMemory) => (Err(NoMemory), link),
    }
}

/// The blocks of clients with the line of these counts. Where the counts are not exact, memory ran out.
fn with_counts(
    alloc: Global,
    planned: Planned,
    exact: bool,
    relayed: u64,
    forwarded: u64,
) -> Result<Planned, NoMemory>
    ensures are_exact { OnOk result (exact ≡ true) }
    ensures text { IfOk result (λ with. with.text.items ≡ planned.text.items ++ counts_line_of relayed forwarded) }
    ensures ends { IfOk result (λ with. with.ends ≡ planned.ends) }
{
    let Planned { mut text, ends } = planned;
    if !exact {
        return Err(NoMemory);
    }
    push_counts(alloc, &mut text, relayed, forwarded)?;
    Ok(Planned { text, ends })
}

/// Adds the line of these counts.
fn push_counts(
    alloc: Global,
    text: &mut Vec<u8>,
    relayed: u64,
    forwarded: u64,
) -> Result<(), NoMemory>
    ensures { OnOk result (text.new.items ≡ text.old.items ++ counts_line_of relayed forwarded) }
{
    let line = counts_line(alloc, relayed, forwarded)?;
    text.extend_from_slice(line.as_slice())?;
    Ok(())
}

/// The line of these counts.
fn counts_line(alloc: Global, relayed: u64, forwarded: u64) -> Result<Vec<u8>, NoMemory>
    ensures { IfOk result (λ line. line.items ≡ counts_line_of relayed forwarded) }
{
    let line = format!(in alloc; "relayed {relayed} forwarded {forwarded}\n")?;
    Ok(line.into_bytes())
}
