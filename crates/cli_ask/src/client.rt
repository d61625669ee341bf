ghost use Rattle.std.specs.Prelude.{◌≡◌, ◌≤◌, IfOk};
ghost use Rattle.cli_ask.specs.Block.{IsPrintable};
ghost use Rattle.cli_ask.specs.Client.{Asks, EndsRight};
ghost use Rattle.lc_world.specs.GoneOn.{IsLeftByGets};
ghost use Rattle.lc_world.specs.Link.{IsQuietWith};
ghost use Rattle.lc_world.specs.Sides.Side.{Side};

use crate::ClientEnd;
use connection_uri::Base;
use convoy::{Convoy, alone_over_any_link, one_client};
use lc_model::{NoMemory, Query};
use lc_world::Link;
use std::alloc::Global;

/// Lets a client ask alone, until it ends. It caches so many pages at most.
pub(crate) fn client_end<L: Link>(
    alloc: Global,
    base: Base,
    query: Query,
    cache: usize,
    link: &mut L,
) -> Result<ClientEnd, NoMemory>
    requires some_pages { 1 ≤ cache }
    requires most_pages { cache ≤ 10_000 }
    ensures asks { IfOk result (Asks base query (L.seen link.old) (L.seen link.new)) }
    ensures printable { IfOk result (λ end. IsPrintable end.outcome) }
    ensures right { IfOk result (λ end. (side : Side) → IsQuietWith (L.seen link.old) base side
        → EndsRight side base query (L.seen link.old).recorded (L.seen link.new).recorded end) }
    ensures left { IsLeftByGets (L.seen link.old) (L.seen link.new) }
    ensures behind { L.behind link.new ≡ L.behind link.old }
{
    alone_over_any_link::<L>();
    one_client::<L>();
    let mut convoy = Convoy::new(alloc, base, cache)?;
    let client = convoy.ask(query)?;
    convoy.finish(alloc, link)?;
    let version = convoy.version(client);
    let exchanges = convoy.exchanges(client);
    let Some(outcome) = convoy.into_outcome(client) else {
        unreachable!()
    };
    Ok(ClientEnd {
        version,
        outcome,
        exchanges,
    })
}
