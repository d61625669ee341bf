ghost use Rattle.std.specs.Prelude.{◌≡◌, IfOk};
ghost use Rattle.cli_ask.specs.LatestDeparture.Client.{EndsRightLatest, client_of};
ghost use Rattle.cli_ask.specs.Block.{IsPrintable};
ghost use Rattle.back_client.specs.Ends.Asked.{HasAskedLatest};
ghost use Rattle.lc_world.specs.GoneOn.{IsLeftByGets};
ghost use Rattle.lc_world.specs.Link.{IsQuietWith};
ghost use Rattle.lc_world.specs.Sides.Side.{Side};

use crate::ClientEnd;
use back_client::{ArriveEnd, arrive, latest_by_its_replies, latest_ends_right};
use back_scan::ArriveQuery;
use connection_uri::Base;
use lc_model::NoMemory;
use lc_world::Link;
use std::alloc::Global;

/// Asks for the latest departure over the link, until the question ends.
pub(crate) fn client_end<L: Link>(
    alloc: Global,
    query: ArriveQuery,
    base: &Base,
    link: &mut L,
) -> Result<ClientEnd, NoMemory>
    ensures asks { IfOk result (λ end. HasAskedLatest base.now query (L.seen link.old) (L.seen link.new) end.version end.exchanges end.outcome) }
    ensures printable { IfOk result (λ end. IsPrintable end.outcome) }
    ensures right { IfOk result (λ end. (side : Side) → IsQuietWith (L.seen link.old) base.now side
        → EndsRightLatest side base.now query (L.seen link.old).recorded (L.seen link.new).recorded (L.seen link.old).faults (L.seen link.new).faults end) }
    ensures left { IsLeftByGets (L.seen link.old) (L.seen link.new) }
    ensures behind { L.behind link.new ≡ L.behind link.old }
{
    latest_by_its_replies::<L>();
    latest_ends_right::<L>();
    match arrive(alloc, query, base, link) {
        Ok(end) => Ok(as_client(end)),
        Err(NoMemory) => Err(NoMemory),
    }
}

/// The end of a question for the latest departure, as that of any client.
fn as_client(end: ArriveEnd) -> ClientEnd
    ensures { result ≡ client_of end }
{
    let ArriveEnd {
        outcome,
        version,
        exchanges,
    } = end;
    ClientEnd {
        version,
        outcome,
        exchanges,
    }
}
