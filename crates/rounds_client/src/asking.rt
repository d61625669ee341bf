ghost use Rattle.std.specs.Prelude.{◌≡◌, ◌≢◌, ◌<◌, ◌∷◌, ◌++◌, [], List, true, Some, OnOk};
ghost use Rattle.lc_model.specs.declared.connection.Connection.{Connection as Listed};
ghost use Rattle.lc_model.specs.declared.doc.StopsDoc.{StopsDoc as Document};
ghost use Rattle.lc_world.specs.GoneOn.{IsLeftByGets};
ghost use Rattle.page_json.specs.Valid.{IsValidPage};
ghost use Rattle.page_client.specs.Client.{StandsFor, TakesPage, shown};
ghost use Rattle.page_client.specs.Page.{advances};
ghost use Rattle.page_client.specs.Shown.{exchanges_left, want_of};
ghost use Rattle.page_client.specs.declared.want.Want.TheVariants as wants;
ghost use Rattle.convoy.specs.Steps.{AsksGate, GoesDown, IsDecided};
ghost use Rattle.rounds_client.specs.Given.{Gives, GivesPage, GivesStops, ReadsReply, TakesDoc, was_given};

use crate::given::Given;
use connection_uri::Base;
use convoy::exchanged;
use lc_model::{NoMemory, PageName, PlainData};
use lc_world::Link;
use page_client::{Client, Want, page_of};
use page_json::Page;
use std::alloc::Global;

/// The client asks for what it wants, once. What it is given is kept.
pub fn ask<L: Link>(
    alloc: Global,
    base: &Base,
    client: &mut Client,
    given: &mut Given,
    link: &mut L,
) -> Result<(), NoMemory>
    requires waits { want_of (shown client.old).phase ≢ wants.Finished }
    requires decided { IsDecided (shown client.old) }
    ensures gives { OnOk result (Gives base.now client.old client.new (L.seen link.old) (L.seen link.new) (was_given given.old) (was_given given.new)) }
    ensures decided { OnOk result (IsDecided (shown client.new)) }
    ensures down { OnOk result (GoesDown (shown client.old) (shown client.new)) }
    ensures fewer { OnOk result (exchanges_left (shown client.new) < exchanges_left (shown client.old)) }
    ensures left { IsLeftByGets (L.seen link.old) (L.seen link.new) }
    ensures behind { L.behind link.new ≡ L.behind link.old }
{
    match client.want() {
        Want::Gate => ask_gate(alloc, base, client, link),
        Want::Stops => ask_stops(alloc, base, client, given, link),
        Want::Page(name) => ask_page(alloc, base, client, name, given, link),
        Want::Finished => unreachable!(),
    }
}

/// Asks the time gate. Nothing is kept of its reply.
fn ask_gate<L: Link>(
    alloc: Global,
    base: &Base,
    client: &mut Client,
    link: &mut L,
) -> Result<(), NoMemory>
    requires wants { want_of (shown client.old).phase ≡ wants.Gate }
    requires decided { IsDecided (shown client.old) }
    ensures asks { OnOk result (AsksGate base.now client.old client.new (L.seen link.old) (L.seen link.new)) }
    ensures decided { OnOk result (IsDecided (shown client.new)) }
    ensures down { OnOk result (GoesDown (shown client.old) (shown client.new)) }
    ensures fewer { OnOk result (exchanges_left (shown client.new) < exchanges_left (shown client.old)) }
    ensures left { IsLeftByGets (L.seen link.old) (L.seen link.new) }
    ensures behind { L.behind link.new ≡ L.behind link.old }
{
    match exchanged(alloc, base, client, link) {
        Ok(Some(reply)) => client.give_gate(alloc, base, reply),
        Ok(None) => Ok(()),
        Err(NoMemory) => Err(NoMemory),
    }
}

/// Asks for the stops document, and keeps it.
fn ask_stops<L: Link>(
    alloc: Global,
    base: &Base,
    client: &mut Client,
    given: &mut Given,
    link: &mut L,
) -> Result<(), NoMemory>
    requires wants { want_of (shown client.old).phase ≡ wants.Stops }
    requires decided { IsDecided (shown client.old) }
    ensures gives { OnOk result (GivesStops base.now client.old client.new (L.seen link.old) (L.seen link.new) (was_given given.old) (was_given given.new)) }
    ensures decided { OnOk result (IsDecided (shown client.new)) }
    ensures down { OnOk result (GoesDown (shown client.old) (shown client.new)) }
    ensures fewer { OnOk result (exchanges_left (shown client.new) < exchanges_left (shown client.old)) }
    ensures left { IsLeftByGets (L.seen link.old) (L.seen link.new) }
    ensures behind { L.behind link.new ≡ L.behind link.old }
{
    match exchanged(alloc, base, client, link) {
        Ok(Some(reply)) => take_stops(alloc, client, given, reply),
        Ok(None) => Ok(()),
        Err(NoMemory) => Err(NoMemory),
    }
}

/// Takes the reply with the stops document, and keeps the document.
fn take_stops(
    alloc: Global,
    client: &mut Client,
    given: &mut Given,
    reply: Vec<u8>,
) -> Result<(), NoMemory>
    requires wants { want_of (shown client.old).phase ≡ wants.Stops }
    requires decided { IsDecided (shown client.old) }
    ensures takes { OnOk result (TakesDoc client.old client.new reply.items (was_given given.old) (was_given given.new)) }
    ensures decided { OnOk result (IsDecided (shown client.new)) }
    ensures down { OnOk result (GoesDown (shown client.old) (shown client.new)) }
    ensures fewer { OnOk result (exchanges_left (shown client.new) < exchanges_left (shown client.old)) }
{
    client.give_stops(alloc, reply)?;
    keep_doc(alloc, client, given)
}

/// Keeps the stops document of a client that reads pages.
fn keep_doc(alloc: Global, client: &Client, given: &mut Given) -> Result<(), NoMemory>
    ensures doc { OnOk result ((doc : Document) (taken : List Listed) → StandsFor client.now doc taken → given.new.doc ≡ Some doc) }
    ensures same { given.new.pages.items ≡ given.old.pages.items }
{
    if let Some(doc) = client.doc() {
        given.doc = Some(doc.copy(alloc)?);
    }
    Ok(())
}

/// Asks for a page, and keeps it.
fn ask_page<L: Link>(
    alloc: Global,
    base: &Base,
    client: &mut Client,
    name: PageName,
    given: &mut Given,
    link: &mut L,
) -> Result<(), NoMemory>
    requires wants { want_of (shown client.old).phase ≡ wants.Page name }
    requires decided { IsDecided (shown client.old) }
    ensures gives { OnOk result (GivesPage base.now client.old client.new (L.seen link.old) (L.seen link.new) (was_given given.old) (was_given given.new)) }
    ensures decided { OnOk result (IsDecided (shown client.new)) }
    ensures down { OnOk result (GoesDown (shown client.old) (shown client.new)) }
    ensures fewer { OnOk result (exchanges_left (shown client.new) < exchanges_left (shown client.old)) }
    ensures left { IsLeftByGets (L.seen link.old) (L.seen link.new) }
    ensures behind { L.behind link.new ≡ L.behind link.old }
{
    match exchanged(alloc, base, client, link) {
        Ok(Some(reply)) => take_reply(alloc, base, client, name, given, reply),
        Ok(None) => Ok(()),
        Err(NoMemory) => Err(NoMemory),
    }
}

/// Takes a reply in which a page was asked for, and keeps the page.
fn take_reply(
    alloc: Global,
    base: &Base,
    client: &mut Client,
    name: PageName,
    given: &mut Given,
    reply: Vec<u8>,
) -> Result<(), NoMemory>
    requires wants { want_of (shown client.old).phase ≡ wants.Page name }
    requires decided { IsDecided (shown client.old) }
    ensures takes { OnOk result (ReadsReply base.now name client.old client.new reply.items (was_given given.old) (was_given given.new)) }
    ensures decided { OnOk result (IsDecided (shown client.new)) }
    ensures down { OnOk result (GoesDown (shown client.old) (shown client.new)) }
    ensures fewer { OnOk result (exchanges_left (shown client.new) < exchanges_left (shown client.old)) }
{
    match page_of(alloc, base, name, reply.as_slice()) {
        Ok(page) => take_page(alloc, client, given, page),
        Err(fault) if fault.is_want() => Err(NoMemory),
        Err(fault) => {
            client.give_peer_fault(reply, fault);
            Ok(())
        }
    }
}

/// Takes a page that was asked for, and keeps it.
fn take_page(
    alloc: Global,
    client: &mut Client,
    given: &mut Given,
    page: Page,
) -> Result<(), NoMemory>
    requires wants { want_of (shown client.old).phase ≡ wants.Page page.name }
    requires decided { IsDecided (shown client.old) }
    requires valid { IsValidPage page }
    requires advances { advances page ≡ true }
    ensures takes { OnOk result (TakesPage client.old page client.new) }
    ensures keeps { OnOk result (given.new.pages.items ≡ given.old.pages.items ++ page ∷ []) }
    ensures same { given.new.doc ≡ given.old.doc }
    ensures decided { OnOk result (IsDecided (shown client.new)) }
    ensures down { OnOk result (GoesDown (shown client.old) (shown client.new)) }
    ensures fewer { OnOk result (exchanges_left (shown client.new) < exchanges_left (shown client.old)) }
{
    client.give_page(alloc, &page)?;
    given.pages.push(page)?;
    Ok(())
}
