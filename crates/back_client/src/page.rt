ghost use Rattle.std.specs.Prelude.{◌≡◌, IfOk};
ghost use Rattle.back_client.specs.Wrong.{is_by, is_level, is_off, reaches, retreats, wrong_of};

use lc_model::{Bytes, Connection, Moment, NoMemory, PageName, PlainData};
use page_client::{Outcome, PeerFault, last_departure, wrong};
use page_json::Page;
use std::alloc::Global;

/// Where the page that is asked for is.
#[derive(Drop)]
pub enum Place {
    /// The time gate sent to it by this reply.
    First { gate: Bytes },
    /// It is the previous one of the page of this name.
    After { name: Moment },
}

/// Whether a later page is for the moment, or an earlier one.
fn is_off(arrive: Moment, page: &Page) -> bool
    ensures { result ≡ is_off arrive page.now }
{
    page.previous.is_some() && arrive < page.name.departs || is_by(arrive, page.next)
}

fn is_by(arrive: Moment, next: Option<PageName>) -> bool
    ensures { result ≡ is_by arrive next }
{
    match next {
        None => false,
        Some(next) => next.departs <= arrive,
    }
}

/// Whether the previous link does not lead to an earlier page.
fn is_level(departs: Moment, previous: Option<PageName>) -> bool
    ensures { result ≡ is_level departs previous }
{
    match previous {
        None => false,
        Some(previous) => departs <= previous.departs,
    }
}

/// Whether the last departure is at the moment or later.
fn reaches(moment: Moment, list: &[Connection]) -> bool
    ensures { result ≡ reaches moment list.now }
{
    match last_departure(list) {
        None => false,
        Some(last) => moment <= last,
    }
}

/// Whether the page does not lead back.
fn retreats(place: &Place, page: &Page) -> bool
    ensures { result ≡ retreats place.now page.now }
{
    is_level(page.name.departs, page.previous)
        || match place {
            Place::First { .. } => false,
            Place::After { name } => reaches(*name, page.list.as_slice()),
        }
}

/// The outcome by the first test that the page fails, if it fails one.
pub fn wrong_of(
    alloc: Global,
    arrive: Moment,
    place: Place,
    page: &Page,
    reply: Vec<u8>,
) -> Result<Option<Outcome>, NoMemory>
    ensures { IfOk result (λ wrong. wrong ≡ wrong_of arrive place page.now reply.items) }
{
    let retreats = retreats(&place, page);
    if let Place::First { gate } = place {
        if is_off(arrive, page) {
            let page = page.copy(alloc)?;
            return Ok(Some(Outcome::PeerWrong {
                reply: gate,
                fault: PeerFault::GateWrong { page },
            }));
        }
    }
    if retreats {
        return Ok(Some(wrong(reply, PeerFault::Retreat)));
    }
    Ok(None)
}
