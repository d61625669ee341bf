ghost use Rattle.std.specs.Prelude.{◌≡◌, true, IfOk};
ghost use Rattle.page_json.specs.Valid.{IsValidPage};
ghost use Rattle.page_client.specs.Fault.{Meets};
ghost use Rattle.lc_model.specs.Connection.{last_departure};
ghost use Rattle.page_client.specs.Page.{Fits, IsPageReply, advances, begins_at, is_asked, is_of_version, is_on_from, tested_page};

use crate::PeerFault;
use crate::replied::{body_of, replied};
use connection_uri::Base;
use http_text::ReplyFault;
use lc_model::{Connection, Moment, NoMemory, PageName};
use page_json::{Page, PageFault, read_page};
use std::alloc::Global;

/// The page of this name that a reply says, or the first test that the reply fails. Linear in the reply.
pub fn page_of(alloc: Global, base: &Base, name: PageName, reply: &[u8]) -> Result<Page, PeerFault>
    ensures said { Meets (IsPageReply base.now name reply.now) result }
    ensures valid { IfOk result IsValidPage }
    ensures named { IfOk result (λ page. page.name ≡ name) }
    ensures advances { IfOk result (λ page. advances page ≡ true) }
{
    match page_said(alloc, base, name, reply) {
        Ok(Ok(page)) => Ok(page),
        Ok(Err(fault)) => Err(fault),
        Err(NoMemory) => Err(PeerFault::Reply(ReplyFault::NoMemory)),
    }
}

fn page_said(
    alloc: Global,
    base: &Base,
    name: PageName,
    bytes: &[u8],
) -> Result<Result<Page, PeerFault>, NoMemory>
    ensures said { IfOk result (IsPageReply base.now name bytes.now) }
    ensures valid { IfOk result (λ said. IfOk said IsValidPage) }
    ensures fits { IfOk result (λ said. IfOk said (Fits name)) }
{
    match replied(alloc, bytes, 200) {
        Ok(Ok(reply)) => match read_page(alloc, base, body_of(bytes, &reply)) {
            Ok(page) => Ok(tested_page(name, reply.memento, page)),
            Err(PageFault::NoMemory) => Err(NoMemory),
            Err(fault) => Ok(Err(PeerFault::Body(fault))),
        },
        Ok(Err(fault)) => Ok(Err(fault)),
        Err(NoMemory) => Err(NoMemory),
    }
}

/// The page, or the first test of a page that it fails.
fn tested_page(name: PageName, memento: Option<Moment>, page: Page) -> Result<Page, PeerFault>
    ensures value { result ≡ tested_page name memento page }
    ensures same { IfOk result (λ same. same ≡ page) }
    ensures fits { IfOk result (Fits name) }
{
    if !is_asked(name, memento, &page) {
        Err(PeerFault::Identity)
    } else if !advances(&page) {
        Err(PeerFault::Advance)
    } else {
        Ok(page)
    }
}

fn is_asked(name: PageName, memento: Option<Moment>, page: &Page) -> bool
    ensures { result ≡ is_asked name memento page.now }
{
    page.name.version == name.version
        && page.name.departs == name.departs
        && is_of_version(name.version, memento)
}

fn is_of_version(version: Moment, memento: Option<Moment>) -> bool
    ensures { result ≡ is_of_version version memento }
{
    match memento {
        None => false,
        Some(memento) => memento == version,
    }
}

/// Whether the page begins with its name's departure, and its next link leads to a page after its last departure.
pub fn advances(page: &Page) -> bool
    ensures { result ≡ advances page.now }
{
    let list = page.list.as_slice();
    begins_at(list, page.name.departs) && is_on_from(last_departure(list), page.next)
}

fn begins_at(list: &[Connection], departs: Moment) -> bool
    ensures { result ≡ begins_at list.now departs }
{
    match list.first() {
        None => true,
        Some(first) => first.dep == departs,
    }
}

/// The last departure of connections in order.
pub fn last_departure(list: &[Connection]) -> Option<Moment>
    ensures { result ≡ last_departure list.now }
{
    let last = list.last()?;
    Some(last.dep)
}

fn is_on_from(last: Option<Moment>, next: Option<PageName>) -> bool
    ensures { result ≡ is_on_from last next }
{
    match (last, next) {
        (_, None) => true,
        (None, Some(_)) => false,
        (Some(last), Some(next)) => last < next.departs,
    }
}
