ghost use Rattle.std.specs.Prelude.{◌↔◌, IsTrue, Some};
ghost use Rattle.page_client.specs.Fault.{IsWant};
ghost use Rattle.page_client.specs.Texts.{peer_fault_text, query_fault_text};

use http_text::ReplyFault;
use lc_model::{NoMemory, PlainData};
use page_json::{Page, PageFault};
use std::alloc::Global;
use std::error::Error;
use std::fmt;

/// Why a question is not asked, or not answered.
#[derive(Clone, Copy, Debug, PartialEq, Eq)]
pub enum QueryFault {
    /// The horizon is not from 1 to 604,800 seconds.
    HorizonRange,
    /// It begins and ends at one stop.
    SameStop,
    /// The stops document lacks the stop where it begins.
    UnknownFrom,
    /// The stops document lacks the stop where it ends.
    UnknownTo,
}

impl fmt::Display for QueryFault {
    ghost output = { λ fault. Some (query_fault_text fault) };

    fn fmt<W: fmt::Write>(&self, f: &mut fmt::Formatter<W>) -> fmt::Result {
        match self {
            QueryFault::HorizonRange => write!(f, "refused horizon"),
            QueryFault::SameStop => write!(f, "refused same stop"),
            QueryFault::UnknownFrom => write!(f, "refused unknown from"),
            QueryFault::UnknownTo => write!(f, "refused unknown to"),
        }
    }
}

impl Error for QueryFault {}

/// The first test that a reply fails.
#[derive(Drop)]
pub enum PeerFault {
    /// It is no reply.
    Reply(ReplyFault),
    /// It has another status than 302 at the time gate and 200 elsewhere.
    Status { got: u16 },
    /// The time gate sends to no page, or to none of this base.
    Location,
    /// It has no body that says a page, or a stops document.
    Body(PageFault),
    /// It is another page than the one asked for, or is not sent as a memento of its version.
    Identity,
    /// The page does not begin with its name's departure, or its next link does not go on.
    Advance,
    /// The time gate sent to this page, though another is for the moment when the question leaves.
    GateWrong { page: Page },
    /// The page does not lead back, where one is asked for after the other by previous links.
    Retreat,
}

impl PlainData for PeerFault {
    fn copy(&self, alloc: Global) -> Result<PeerFault, NoMemory> {
        Ok(match self {
            PeerFault::Reply(fault) => PeerFault::Reply(*fault),
            PeerFault::Status { got } => PeerFault::Status { got: *got },
            PeerFault::Location => PeerFault::Location,
            PeerFault::Body(fault) => PeerFault::Body(fault.copy(alloc)?),
            PeerFault::Identity => PeerFault::Identity,
            PeerFault::Advance => PeerFault::Advance,
            PeerFault::GateWrong { page } => PeerFault::GateWrong {
                page: page.copy(alloc)?,
            },
            PeerFault::Retreat => PeerFault::Retreat,
        })
    }
}

impl fmt::Display for PeerFault {
    ghost output = { λ fault. Some (peer_fault_text fault) };

    fn fmt<W: fmt::Write>(&self, f: &mut fmt::Formatter<W>) -> fmt::Result {
        match self {
            PeerFault::Reply(_) => write!(f, "peer wrong reply"),
            PeerFault::Status { got } => write!(f, "peer wrong status {got}"),
            PeerFault::Location => write!(f, "peer wrong location"),
            PeerFault::Body(_) => write!(f, "peer wrong body"),
            PeerFault::Identity => write!(f, "peer wrong identity"),
            PeerFault::Advance => write!(f, "peer wrong advance"),
            PeerFault::GateWrong { .. } => write!(f, "peer wrong gate"),
            PeerFault::Retreat => write!(f, "peer wrong retreat"),
        }
    }
}

/// As it is printed: a page has no other form for people to read.
impl fmt::Debug for PeerFault {
    fn fmt<W: fmt::Write>(&self, f: &mut fmt::Formatter<W>) -> fmt::Result {
        fmt::Display::fmt(self, f)
    }
}

impl Error for PeerFault {}

impl PeerFault {
    /// Whether it is running out of memory in a lower fault, and no failed test.
    pub fn is_want(&self) -> bool
        ensures { IsTrue result ↔ IsWant self.now }
    {
        matches!(
            self,
            PeerFault::Reply(ReplyFault::NoMemory) | PeerFault::Body(PageFault::NoMemory)
        )
    }
}
