ghost use Rattle.std.specs.Prelude.{◌≡◌, ◌≤◌, ◌+◌, [], None, IfOk};
ghost use Rattle.connection_uri.specs.Page.{page_target_of};
ghost use Rattle.lc_world.specs.GoneOn.{IsLeftByGets};
ghost use Rattle.page_client.specs.Request.{Asks};
ghost use Rattle.lc_model.specs.declared.doc.StopsDoc.{StopsDoc};
ghost use Rattle.back_scan.specs.Forward.{forward_query};
ghost use Rattle.back_scan.specs.StandsFor.{StandsFor};
ghost use Rattle.back_client.specs.Arrives.{HasWalked};
ghost use Rattle.back_client.specs.Steps.{GoesBelow, IsTurn};

use crate::ArriveEnd;
use crate::exchange::exchanged;
use crate::page::Place;
use crate::step::{Sequel, take_reply};
use back_scan::{ArriveQuery, BackScan};
use connection_uri::Base;
use lc_model::{Bytes, Moment, NoMemory, PageName};
use lc_world::Link;
use page_client::ask_page;
use std::alloc::Global;
use std::mem;

/// The request for the page of this name.
fn page_request(alloc: Global, base: &Base, name: &PageName) -> Result<Vec<u8>, NoMemory>
    ensures { IfOk result (λ text. Asks base.now (page_target_of base.now name.now) None text.items) }
{
    ask_page(alloc, base, *name)
}

/// Asks for the page of this name once, and takes what the reply says.
fn page_turn<L: Link>(
    alloc: Global,
    base: &Base,
    scan: &mut BackScan,
    arrive: Moment,
    place: Place,
    name: &PageName,
    link: &mut L,
) -> Result<Sequel, NoMemory>
    ensures turn { IfOk result (IsTurn base.now arrive place name.now scan.old scan.new (L.seen link.old) (L.seen link.new)) }
    ensures below { IfOk result (GoesBelow name.now.departs) }
    ensures left { IsLeftByGets (L.seen link.old) (L.seen link.new) }
    ensures behind { L.behind link.new ≡ L.behind link.old }
{
    let request = page_request(alloc, base, name)?;
    match exchanged(alloc, base, request.as_slice(), link)? {
        Ok(reply) => take_reply(alloc, base, scan, arrive, place, *name, reply),
        Err(outcome) => Ok(Sequel::Ends(outcome)),
    }
}

/// Takes page after page along the previous links, from the one to which the time gate sent, until one ends the walk. Two exchanges were
/// made before.
pub fn walk_back<L: Link>(
    alloc: Global,
    base: &Base,
    query: &ArriveQuery,
    scan: &mut BackScan,
    gate: Bytes,
    first: PageName,
    link: &mut L,
) -> Result<ArriveEnd, NoMemory>
    ensures walked { (doc : StopsDoc) → StandsFor scan.old (forward_query query.now) doc []
        → IfOk result (HasWalked L.seen base.now query.now doc gate first link.old link.new) }
    ensures most { (doc : StopsDoc) → StandsFor scan.old (forward_query query.now) doc []
        → IfOk result (λ end. end.exchanges ≤ query.now.horizon + 3) }
    ensures left { IsLeftByGets (L.seen link.old) (L.seen link.new) }
    ensures behind { L.behind link.new ≡ L.behind link.old }
{
    // The call says the range of moments: fewer pages than seconds can lead back.
    let _first = first.departs.seconds();
    let version = first.version;
    let mut place = Place::First { gate };
    let mut name = first;
    let mut exchanges = 2;
    'pages: loop {
        exchanges += 1;
        let after = Place::After { name: name.departs };
        let here = mem::replace(&mut place, after);
        let sequel = page_turn(alloc, base, scan, query.arrive, here, &name, link)?;
        match sequel {
            Sequel::Goes(previous) => name = previous,
            Sequel::Ends(outcome) => {
                return Ok(ArriveEnd {
                    outcome,
                    version: Some(version),
                    exchanges,
                });
            }
        }
    }
}
