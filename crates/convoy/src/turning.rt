ghost use Rattle.std.specs.Prelude.{◌≡◌, ◌≢◌, ◌<◌, ◌+◌, IfOk, OnOk};
ghost use Rattle.std.specs.List.{All};
ghost use Rattle.lc_world.specs.GoneOn.{IsLeftByGets};
ghost use Rattle.page_client.specs.Client.{TakesPage, shown};
ghost use Rattle.page_client.specs.Shown.{exchanges_left, want_of};
ghost use Rattle.page_client.specs.declared.want.Want.TheVariants as wants;
ghost use Rattle.convoy.specs.Steps.{IsDecided, MayBeAsked, MayBeTaken};
ghost use Rattle.convoy.specs.Turn.{Asks, Turned};
ghost use Rattle.convoy.specs.declared.turn.Turn.TheVariants as turns;

use crate::Turn;
use crate::member::Member;
use crate::steps::ask;
use connection_uri::Base;
use lc_model::{NoMemory, PageName};
use lc_world::Link;
use page_client::{PageCache, Want};
use page_json::Page;
use std::alloc::Global;

/// The turn of a member: it takes the reply to what it wants, or a cached page.
pub fn turned<L: Link>(
    alloc: Global,
    base: &Base,
    member: &mut Member,
    cache: &mut PageCache,
    link: &mut L,
) -> Result<Turn, NoMemory>
    requires decided { IsDecided (shown member.old.client) }
    requires sound { All MayBeTaken cache.old.pages }
    ensures turned { IfOk result (Turned base.now member.old member.new cache.old cache.new (L.seen link.old) (L.seen link.new)) }
    ensures idle { IfOk result (λ turn. turn ≢ turns.Exchanged → link.new ≡ link.old) }
    ensures fewer { IfOk result (λ turn. turn ≢ turns.Finished → exchanges_left (shown member.new.client) < exchanges_left (shown member.old.client)) }
    ensures decided { OnOk result (IsDecided (shown member.new.client)) }
    ensures sound { All MayBeTaken cache.new.pages }
    ensures left { IsLeftByGets (L.seen link.old) (L.seen link.new) }
    ensures behind { L.behind link.new ≡ L.behind link.old }
{
    match member.client.want() {
        Want::Gate => asked_turn(alloc, base, member, Want::Gate, cache, link),
        Want::Stops => asked_turn(alloc, base, member, Want::Stops, cache, link),
        Want::Page(name) => page_turn(alloc, base, member, name, cache, link),
        Want::Finished => Ok(Turn::Finished),
    }
}

/// The member takes a page: the cached one, or the one that it is sent.
fn page_turn<L: Link>(
    alloc: Global,
    base: &Base,
    member: &mut Member,
    name: PageName,
    cache: &mut PageCache,
    link: &mut L,
) -> Result<Turn, NoMemory>
    requires wants { want_of (shown member.old.client).phase ≡ wants.Page name }
    requires decided { IsDecided (shown member.old.client) }
    requires sound { All MayBeTaken cache.old.pages }
    ensures turned { IfOk result (Turned base.now member.old member.new cache.old cache.new (L.seen link.old) (L.seen link.new)) }
    ensures idle { IfOk result (λ turn. turn ≢ turns.Exchanged → link.new ≡ link.old) }
    ensures fewer { OnOk result (exchanges_left (shown member.new.client) < exchanges_left (shown member.old.client)) }
    ensures decided { OnOk result (IsDecided (shown member.new.client)) }
    ensures sound { All MayBeTaken cache.new.pages }
    ensures left { IsLeftByGets (L.seen link.old) (L.seen link.new) }
    ensures behind { L.behind link.new ≡ L.behind link.old }
{
    // Taken apart, as a value that is passed to `get` stays lent as long as the page.
    let PageName { version, departs } = name;
    if let Some(page) = cache.get(PageName { version, departs }) {
        return held_turn(alloc, member, page);
    }
    asked_turn(
        alloc,
        base,
        member,
        Want::Page(PageName { version, departs }),
        cache,
        link,
    )
}

/// The member takes a cached page.
fn held_turn(alloc: Global, member: &mut Member, page: &Page) -> Result<Turn, NoMemory>
    requires wants { want_of (shown member.old.client).phase ≡ wants.Page page.now.name }
    requires decided { IsDecided (shown member.old.client) }
    requires sound { MayBeTaken page.now }
    ensures cached { IfOk result (λ turn. turn ≡ turns.Cached) }
    ensures takes { OnOk result (TakesPage member.old.client page.now member.new.client) }
    ensures same_count { OnOk result (member.new.exchanges ≡ member.old.exchanges) }
    ensures fewer { OnOk result (exchanges_left (shown member.new.client) < exchanges_left (shown member.old.client)) }
    ensures decided { OnOk result (IsDecided (shown member.new.client)) }
{
    match member.client.give_page(alloc, page) {
        Ok(()) => Ok(Turn::Cached),
        Err(NoMemory) => Err(NoMemory),
    }
}

/// The member makes one exchange, for what it wants. It is counted, also where it fails.
fn asked_turn<L: Link>(
    alloc: Global,
    base: &Base,
    member: &mut Member,
    want: Want,
    cache: &mut PageCache,
    link: &mut L,
) -> Result<Turn, NoMemory>
    requires wants { want_of (shown member.old.client).phase ≡ want }
    requires may { MayBeAsked want cache.old }
    requires decided { IsDecided (shown member.old.client) }
    requires sound { All MayBeTaken cache.old.pages }
    ensures exchanged { IfOk result (λ turn. turn ≡ turns.Exchanged) }
    ensures asks { OnOk result (Asks base.now member.old.client member.new.client cache.old cache.new (L.seen link.old) (L.seen link.new)) }
    ensures one_more { OnOk result (member.new.exchanges ≡ member.old.exchanges + 1) }
    ensures fewer { OnOk result (exchanges_left (shown member.new.client) < exchanges_left (shown member.old.client)) }
    ensures decided { OnOk result (IsDecided (shown member.new.client)) }
    ensures sound { All MayBeTaken cache.new.pages }
    ensures left { IsLeftByGets (L.seen link.old) (L.seen link.new) }
    ensures behind { L.behind link.new ≡ L.behind link.old }
{
    match ask(alloc, base, &mut member.client, want, cache, link) {
        Ok(()) => {
            member.exchanges += 1;
            Ok(Turn::Exchanged)
        }
        Err(NoMemory) => Err(NoMemory),
    }
}
