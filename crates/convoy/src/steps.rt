ghost use Rattle.std.specs.Prelude.{◌≡◌, ◌<◌, true, None, OnOk};
ghost use Rattle.std.specs.List.{All};
ghost use Rattle.lc_world.specs.GoneOn.{IsLeftByGets};
ghost use Rattle.page_json.specs.Valid.{IsValidPage};
ghost use Rattle.page_client.specs.Kept.{page_named};
ghost use Rattle.page_client.specs.Client.{TakesPage, shown};
ghost use Rattle.page_client.specs.Page.{advances};
ghost use Rattle.page_client.specs.Shown.{exchanges_left, is_wrong, want_of, wrong_gate};
ghost use Rattle.page_client.specs.declared.want.Want.TheVariants.{Gate, Page as WantsPage, Stops};
ghost use Rattle.convoy.specs.Steps.{AsksGate, AsksPage, AsksStops, GoesDown, IsDecided, MayBeAsked, MayBeTaken, TakesReply, kept_after};
ghost use Rattle.convoy.specs.Turn.{Asks};

use crate::exchange::exchanged;
use connection_uri::Base;
use lc_model::{NoMemory, PageName};
use lc_world::Link;
use page_client::{Client, Outcome, PageCache, Want, page_of};
use page_json::Page;
use std::alloc::Global;

/// Asks for what the client wants, and takes the reply. A page is put in the cache.
pub fn ask<L: Link>(
    alloc: Global,
    base: &Base,
    client: &mut Client,
    want: Want,
    cache: &mut PageCache,
    link: &mut L,
) -> Result<(), NoMemory>
    requires wants { want_of (shown client.old).phase ≡ want }
    requires may { MayBeAsked want cache.old }
    requires decided { IsDecided (shown client.old) }
    requires sound { All MayBeTaken cache.old.pages }
    ensures asks { OnOk result (Asks base.now client.old client.new cache.old cache.new (L.seen link.old) (L.seen link.new)) }
    ensures decided { OnOk result (IsDecided (shown client.new)) }
    ensures down { GoesDown (shown client.old) (shown client.new) }
    ensures fewer { OnOk result (exchanges_left (shown client.new) < exchanges_left (shown client.old)) }
    ensures sound { All MayBeTaken cache.new.pages }
    ensures left { IsLeftByGets (L.seen link.old) (L.seen link.new) }
    ensures behind { L.behind link.new ≡ L.behind link.old }
{
    match want {
        Want::Gate => ask_gate(alloc, base, client, link),
        Want::Stops => ask_stops(alloc, base, client, link),
        Want::Page(name) => ask_page(alloc, base, client, name, cache, link),
        Want::Finished => unreachable!(),
    }
}

/// Asks the time gate, and takes its reply.
fn ask_gate<L: Link>(
    alloc: Global,
    base: &Base,
    client: &mut Client,
    link: &mut L,
) -> Result<(), NoMemory>
    requires wants { want_of (shown client.old).phase ≡ Gate }
    requires decided { IsDecided (shown client.old) }
    ensures asks { OnOk result (AsksGate base.now client.old client.new (L.seen link.old) (L.seen link.new)) }
    ensures decided { OnOk result (IsDecided (shown client.new)) }
    ensures down { GoesDown (shown client.old) (shown client.new) }
    ensures fewer { OnOk result (exchanges_left (shown client.new) < exchanges_left (shown client.old)) }
    ensures left { IsLeftByGets (L.seen link.old) (L.seen link.new) }
    ensures behind { L.behind link.new ≡ L.behind link.old }
{
    match exchanged(alloc, base, client, link) {
        Ok(Some(reply)) => client.give_gate(alloc, base, reply),
        Ok(None) => Ok(()),
        Err(NoMemory) => Err(NoMemory),
    }
}

/// Asks for the stops document, and takes it.
fn ask_stops<L: Link>(
    alloc: Global,
    base: &Base,
    client: &mut Client,
    link: &mut L,
) -> Result<(), NoMemory>
    requires wants { want_of (shown client.old).phase ≡ Stops }
    requires decided { IsDecided (shown client.old) }
    ensures asks { OnOk result (AsksStops base.now client.old client.new (L.seen link.old) (L.seen link.new)) }
    ensures decided { OnOk result (IsDecided (shown client.new)) }
    ensures down { GoesDown (shown client.old) (shown client.new) }
    ensures fewer { OnOk result (exchanges_left (shown client.new) < exchanges_left (shown client.old)) }
    ensures left { IsLeftByGets (L.seen link.old) (L.seen link.new) }
    ensures behind { L.behind link.new ≡ L.behind link.old }
{
    match exchanged(alloc, base, client, link) {
        Ok(Some(reply)) => client.give_stops(alloc, reply),
        Ok(None) => Ok(()),
        Err(NoMemory) => Err(NoMemory),
    }
}

/// Asks for a page that the cache lacks, takes it and puts it in the cache.
fn ask_page<L: Link>(
    alloc: Global,
    base: &Base,
    client: &mut Client,
    name: PageName,
    cache: &mut PageCache,
    link: &mut L,
) -> Result<(), NoMemory>
    requires wants { want_of (shown client.old).phase ≡ WantsPage name }
    requires lacks { page_named cache.old.pages name ≡ None }
    requires decided { IsDecided (shown client.old) }
    requires sound { All MayBeTaken cache.old.pages }
    ensures asks { OnOk result (AsksPage base.now client.old client.new cache.old cache.new (L.seen link.old) (L.seen link.new)) }
    ensures decided { OnOk result (IsDecided (shown client.new)) }
    ensures down { GoesDown (shown client.old) (shown client.new) }
    ensures fewer { OnOk result (exchanges_left (shown client.new) < exchanges_left (shown client.old)) }
    ensures sound { All MayBeTaken cache.new.pages }
    ensures left { IsLeftByGets (L.seen link.old) (L.seen link.new) }
    ensures behind { L.behind link.new ≡ L.behind link.old }
{
    match exchanged(alloc, base, client, link) {
        Ok(Some(reply)) => take_reply(alloc, base, client, name, cache, reply),
        Ok(None) => Ok(()),
        Err(NoMemory) => Err(NoMemory),
    }
}

/// Takes a reply in which a page was asked for.
fn take_reply(
    alloc: Global,
    base: &Base,
    client: &mut Client,
    name: PageName,
    cache: &mut PageCache,
    reply: Vec<u8>,
) -> Result<(), NoMemory>
    requires wants { want_of (shown client.old).phase ≡ WantsPage name }
    requires decided { IsDecided (shown client.old) }
    requires sound { All MayBeTaken cache.old.pages }
    ensures takes { OnOk result (TakesReply base.now name client.old client.new cache.old cache.new reply.items) }
    ensures decided { OnOk result (IsDecided (shown client.new)) }
    ensures down { GoesDown (shown client.old) (shown client.new) }
    ensures fewer { OnOk result (exchanges_left (shown client.new) < exchanges_left (shown client.old)) }
    ensures sound { All MayBeTaken cache.new.pages }
{
    match page_of(alloc, base, name, reply.as_slice()) {
        Ok(page) => take_asked(alloc, client, cache, page),
        Err(fault) if fault.is_want() => Err(NoMemory),
        Err(fault) => {
            client.give_peer_fault(reply, fault);
            Ok(())
        }
    }
}

/// Takes a page that was asked for, and puts it in the cache unless the time gate was wrong to send there.
fn take_asked(
    alloc: Global,
    client: &mut Client,
    cache: &mut PageCache,
    page: Page,
) -> Result<(), NoMemory>
    requires wants { want_of (shown client.old).phase ≡ WantsPage page.name }
    requires decided { IsDecided (shown client.old) }
    requires sound { All MayBeTaken cache.old.pages }
    requires valid { IsValidPage page }
    requires advances { advances page ≡ true }
    ensures takes { OnOk result (TakesPage client.old page client.new) }
    ensures puts { OnOk result (cache.new ≡ kept_after (wrong_gate page (shown client.old).query.leave (shown client.old).gate) cache.old page) }
    ensures decided { OnOk result (IsDecided (shown client.new)) }
    ensures down { GoesDown (shown client.old) (shown client.new) }
    ensures fewer { OnOk result (exchanges_left (shown client.new) < exchanges_left (shown client.old)) }
    ensures sound { All MayBeTaken cache.new.pages }
{
    client.give_page(alloc, &page)?;
    if was_refused(client) {
        Ok(())
    } else {
        match cache.put(page) {
            Ok(()) => Ok(()),
            Err(NoMemory) => Err(NoMemory),
        }
    }
}

/// Whether a reply to the client failed a test.
fn was_refused(client: &Client) -> bool
    ensures { result ≡ is_wrong (shown client.now).outcome }
{
    match client.outcome() {
        Some(Outcome::PeerWrong { .. }) => true,
        Some(Outcome::Found(_)) => false,
        Some(Outcome::NoJourney) => false,
        Some(Outcome::Refused(_)) => false,
        Some(Outcome::LinkFault { .. }) => false,
        None => false,
    }
}
