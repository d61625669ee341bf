ghost use Rattle.std.specs.Prelude.{◌≡◌, ◌≤◌, ◌+◌, IfOk};
ghost use Rattle.lc_world.specs.GoneOn.{IsLeftByGets};
ghost use Rattle.page_client.specs.Shown.{HasHorizon};
ghost use Rattle.back_scan.specs.Forward.{forward_query};
ghost use Rattle.back_client.specs.Arrives.{AfterDoc, Arrives, AsksGate, AsksStops, ended};

use crate::ArriveEnd;
use crate::exchange::exchanged;
use crate::refusal::refusal_of;
use crate::walk::walk_back;
use back_scan::{ArriveQuery, BackScan};
use connection_uri::Base;
use csa_scan::BeginFault;
use lc_model::{Bytes, Moment, NoMemory, PageName, StopsDoc};
use lc_world::Link;
use page_client::{Outcome, QueryFault, ask_gate, ask_stops, gate_said, stops_said, wrong};
use std::alloc::Global;

/// An end with this outcome.
fn end(outcome: Outcome, version: Option<Moment>, exchanges: u64) -> ArriveEnd
    ensures { result ≡ ended outcome version exchanges }
{
    ArriveEnd {
        outcome,
        version,
        exchanges,
    }
}

/// Begins the scan, and takes page after page.
fn with_doc<L: Link>(
    alloc: Global,
    base: &Base,
    query: &ArriveQuery,
    doc: &StopsDoc,
    first: PageName,
    gate: Bytes,
    link: &mut L,
) -> Result<ArriveEnd, NoMemory>
    requires { HasHorizon (forward_query query.now) }
    ensures after { IfOk result (AfterDoc L.seen base.now query.now doc.now gate first link.old link.new) }
    ensures most { IfOk result (λ end. end.exchanges ≤ query.now.horizon + 3) }
    ensures left { IsLeftByGets (L.seen link.old) (L.seen link.new) }
    ensures behind { L.behind link.new ≡ L.behind link.old }
{
    match BackScan::begin(alloc, query, doc) {
        Ok(mut scan) => walk_back(alloc, base, query, &mut scan, gate, first, link),
        Err(BeginFault::UnknownFrom) => {
            let unknown = Outcome::Refused(QueryFault::UnknownFrom);
            Ok(end(unknown, Some(first.version), 2))
        }
        Err(BeginFault::UnknownTo) => {
            let unknown = Outcome::Refused(QueryFault::UnknownTo);
            Ok(end(unknown, Some(first.version), 2))
        }
        Err(BeginFault::NoMemory) => Err(NoMemory),
    }
}

/// Asks for the stops document, and goes on by what the reply says.
fn with_stops<L: Link>(
    alloc: Global,
    base: &Base,
    query: &ArriveQuery,
    first: PageName,
    gate: Bytes,
    link: &mut L,
) -> Result<ArriveEnd, NoMemory>
    requires { HasHorizon (forward_query query.now) }
    ensures asks { IfOk result (AsksStops L.seen base.now query.now gate first link.old link.new) }
    ensures most { IfOk result (λ end. end.exchanges ≤ query.now.horizon + 3) }
    ensures left { IsLeftByGets (L.seen link.old) (L.seen link.new) }
    ensures behind { L.behind link.new ≡ L.behind link.old }
{
    let request = ask_stops(alloc, base)?;
    match exchanged(alloc, base, request.as_slice(), link)? {
        Ok(reply) => match stops_said(alloc, reply.as_slice())? {
            Ok(doc) => with_doc(alloc, base, query, &doc, first, gate, link),
            Err(fault) => Ok(end(wrong(reply, fault), Some(first.version), 2)),
        },
        Err(outcome) => Ok(end(outcome, Some(first.version), 2)),
    }
}

/// Asks the time gate, and goes on by what the reply says.
fn with_gate<L: Link>(
    alloc: Global,
    base: &Base,
    query: &ArriveQuery,
    link: &mut L,
) -> Result<ArriveEnd, NoMemory>
    requires { HasHorizon (forward_query query.now) }
    ensures asks { IfOk result (AsksGate L.seen base.now query.now link.old link.new) }
    ensures most { IfOk result (λ end. end.exchanges ≤ query.now.horizon + 3) }
    ensures left { IsLeftByGets (L.seen link.old) (L.seen link.new) }
    ensures behind { L.behind link.new ≡ L.behind link.old }
{
    let request = ask_gate(alloc, base, query.arrive, query.known)?;
    match exchanged(alloc, base, request.as_slice(), link)? {
        Ok(reply) => match gate_said(alloc, base, query.arrive, reply.as_slice())? {
            Ok(first) => with_stops(alloc, base, query, first, Bytes::from_list(reply), link),
            Err(fault) => Ok(end(wrong(reply, fault), None, 1)),
        },
        Err(outcome) => Ok(end(outcome, None, 1)),
    }
}

/// Asks over the link how to get from one stop to another by a moment, leaving as late as possible. It asks the time gate, the stops
/// document, and the pages from the one for the moment of arrival back, until no earlier one can be better. It makes `horizon + 3`
/// exchanges at most. Takes the time of the exchanges, and that of `BackScan` over the pages.
pub fn arrive<L: Link>(
    alloc: Global,
    query: ArriveQuery,
    base: &Base,
    link: &mut L,
) -> Result<ArriveEnd, NoMemory>
    ensures arrives { IfOk result (Arrives L.seen base.now query link.old link.new) }
    ensures most { IfOk result (λ end. end.exchanges ≤ query.horizon + 3) }
    ensures left { IsLeftByGets (L.seen link.old) (L.seen link.new) }
    ensures behind { L.behind link.new ≡ L.behind link.old }
{
    match refusal_of(&query) {
        Some(fault) => Ok(end(Outcome::Refused(fault), None, 0)),
        None => with_gate(alloc, base, &query, link),
    }
}
