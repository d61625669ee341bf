ghost use Rattle.std.specs.Prelude.{◌≡◌, IfOk};
ghost use Rattle.page_client.specs.Shown.{answered, is_early, is_late, is_off, wrong_gate};
ghost use Rattle.page_client.specs.declared.outcome.Outcome.TheVariants as outcomes;

use crate::{PeerFault, QueryFault};
use lc_model::{Bytes, Connection, Journey, Moment, NoMemory, PageName, PlainData};
use page_json::Page;
use std::alloc::Global;

/// How a client ended.
#[derive(Drop)]
pub enum Outcome {
    /// With a best journey.
    Found(Journey),
    /// There is no journey.
    NoJourney,
    /// The question was refused.
    Refused(QueryFault),
    /// An exchange failed, in which the link's count of faults increased.
    LinkFault { before: u64, after: u64 },
    /// This reply fails a test.
    PeerWrong { reply: Bytes, fault: PeerFault },
}

impl PlainData for Outcome {
    fn copy(&self, alloc: Global) -> Result<Outcome, NoMemory> {
        Ok(match self {
            Outcome::Found(journey) => Outcome::Found(journey.copy(alloc)?),
            Outcome::NoJourney => Outcome::NoJourney,
            Outcome::Refused(fault) => Outcome::Refused(*fault),
            Outcome::LinkFault { before, after } => Outcome::LinkFault {
                before: *before,
                after: *after,
            },
            Outcome::PeerWrong { reply, fault } => Outcome::PeerWrong {
                reply: reply.copy(alloc)?,
                fault: fault.copy(alloc)?,
            },
        })
    }
}

/// A reply that fails a test.
pub fn wrong(reply: Vec<u8>, fault: PeerFault) -> Outcome
    ensures { result ≡ outcomes.PeerWrong reply.items fault }
{
    Outcome::PeerWrong {
        reply: Bytes::from_list(reply),
        fault,
    }
}

/// A best journey, or that there is none.
pub fn answered(journey: Option<Journey>) -> Outcome
    ensures { result ≡ answered journey }
{
    match journey {
        Some(journey) => Outcome::Found(journey),
        None => Outcome::NoJourney,
    }
}

/// That the time gate, whose reply is held until the first page is taken, was wrong to send here.
pub fn wrong_gate(
    alloc: Global,
    page: &Page,
    leave: Moment,
    gate: Option<Bytes>,
) -> Result<Option<Outcome>, NoMemory>
    ensures { IfOk result (λ outcome. outcome ≡ wrong_gate page.now leave gate) }
{
    let Some(reply) = gate else {
        return Ok(None);
    };
    if !is_off(leave, page) {
        return Ok(None);
    }
    let page = page.copy(alloc)?;
    Ok(Some(Outcome::PeerWrong {
        reply,
        fault: PeerFault::GateWrong { page },
    }))
}

/// Whether an earlier page is for the moment, or a later one.
fn is_off(leave: Moment, page: &Page) -> bool
    ensures { result ≡ is_off leave page.now }
{
    is_late(leave, page.list.as_slice(), page.previous) || is_early(leave, page.next)
}

fn is_late(leave: Moment, list: &[Connection], previous: Option<PageName>) -> bool
    ensures { result ≡ is_late leave list.now previous }
{
    match list.first() {
        None => false,
        Some(first) => previous.is_some() && leave < first.dep,
    }
}

fn is_early(leave: Moment, next: Option<PageName>) -> bool
    ensures { result ≡ is_early leave next }
{
    match next {
        None => false,
        Some(next) => next.departs <= leave,
    }
}
