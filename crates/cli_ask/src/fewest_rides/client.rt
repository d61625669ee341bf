ghost use Rattle.std.specs.Prelude.{◌≡◌, IfOk};
ghost use Rattle.cli_ask.specs.Block.{IsPrintable};
ghost use Rattle.cli_ask.specs.FewestRides.Client.{EndsRightFewest, client_of};
ghost use Rattle.rounds_client.specs.Ends.Asked.{HasAskedFewest};
ghost use Rattle.lc_world.specs.GoneOn.{IsLeftByGets};
ghost use Rattle.lc_world.specs.Link.{IsQuietWith};
ghost use Rattle.lc_world.specs.Sides.Side.{Side};

use crate::ClientEnd;
use connection_uri::Base;
use convoy::steps_keep_agreement;
use lc_model::{NoMemory, Query};
use lc_world::Link;
use rounds_client::{FewestEnd, fewest, fewest_at_version, fewest_by_its_replies};
use std::alloc::Global;

/// Lets a client of the fewest rides ask alone, until it ends.
pub(crate) fn client_end<L: Link>(
    alloc: Global,
    query: Query,
    base: &Base,
    link: &mut L,
) -> Result<ClientEnd, NoMemory>
    ensures asks { IfOk result (λ end. HasAskedFewest base.now query (L.seen link.old) (L.seen link.new) end.version end.exchanges end.outcome) }
    ensures printable { IfOk result (λ end. IsPrintable end.outcome) }
    ensures right { IfOk result (λ end. (side : Side) → IsQuietWith (L.seen link.old) base.now side
        → EndsRightFewest side base.now query (L.seen link.old).recorded (L.seen link.new).recorded end) }
    ensures left { IsLeftByGets (L.seen link.old) (L.seen link.new) }
    ensures behind { L.behind link.new ≡ L.behind link.old }
{
    fewest_by_its_replies::<L>();
    steps_keep_agreement();
    fewest_at_version();
    match fewest(alloc, query, base, link) {
        Ok(end) => Ok(as_client(end)),
        Err(NoMemory) => Err(NoMemory),
    }
}

/// The end of a client of the fewest rides, as that of any client.
fn as_client(end: FewestEnd) -> ClientEnd
    ensures { result ≡ client_of end }
{
    let FewestEnd {
        outcome,
        version,
        exchanges,
    } = end;
    ClientEnd {
        version,
        outcome,
        exchanges,
    }
}
