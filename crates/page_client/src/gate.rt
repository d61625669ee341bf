ghost use Rattle.std.specs.Prelude.{◌≡◌, Some, IfOk, IfSome};
ghost use Rattle.lc_model.specs.declared.page.PageName.{PageName as Named};
ghost use Rattle.page_json.specs.Says.{SaysPage};
ghost use Rattle.page_client.specs.Gate.{IsGateReply, IsJoined, IsSent, LeadsTo};

use crate::PeerFault;
use crate::replied::replied;
use connection_uri::{Base, read_page_url};
use lc_model::{Moment, NoMemory, PageName, Text};
use memento::gate_url;
use std::alloc::Global;
use url::{ParseError, Url};

/// The page to which the reply of the time gate sends, or the first test that the reply fails.
pub fn gate_said(
    alloc: Global,
    base: &Base,
    leave: Moment,
    bytes: &[u8],
) -> Result<Result<PageName, PeerFault>, NoMemory>
    ensures { IfOk result (IsGateReply base.now leave bytes.now) }
{
    match replied(alloc, bytes, 302) {
        Ok(Ok(reply)) => sent(alloc, base, leave, reply.location),
        Ok(Err(fault)) => Ok(Err(fault)),
        Err(NoMemory) => Err(NoMemory),
    }
}

/// The page to which the time gate sends by this reference, if it has one.
fn sent(
    alloc: Global,
    base: &Base,
    leave: Moment,
    location: Option<Text>,
) -> Result<Result<PageName, PeerFault>, NoMemory>
    ensures { IfOk result (IsSent base.now leave location) }
{
    let Some(reference) = location else {
        return Ok(Err(PeerFault::Location));
    };
    match led(alloc, base, leave, reference.as_str()) {
        Ok(Some(name)) => Ok(Ok(name)),
        Ok(None) => Ok(Err(PeerFault::Location)),
        Err(NoMemory) => Err(NoMemory),
    }
}

/// The page to which the reference leads.
fn led(
    alloc: Global,
    base: &Base,
    leave: Moment,
    reference: &str,
) -> Result<Option<PageName>, NoMemory>
    ensures said { IfOk result (λ led. IfSome led (LeadsTo base.now leave reference.now)) }
    ensures exact { IfOk result (λ led. (name : Named) → LeadsTo base.now leave reference.now name → led ≡ Some name) }
{
    let gate = gate_url(alloc, base, leave)?;
    match Url::parse(alloc, gate.as_str()) {
        Ok(gate) => joined(base, &gate, reference),
        Err(ParseError::OutOfMemory | ParseError::Overflow) => Err(NoMemory),
        Err(_) => Ok(None),
    }
}

/// The page whose URL the reference is, joined to the time gate's.
fn joined(base: &Base, gate: &Url, reference: &str) -> Result<Option<PageName>, NoMemory>
    ensures said { IfOk result (λ joined. IfSome joined (IsJoined base.now gate.now reference.now)) }
    ensures exact { IfOk result (λ joined. (name : Named) → IsJoined base.now gate.now reference.now name
        → joined ≡ Some name) }
{
    match gate.join(reference) {
        Ok(url) => Ok(page_at(base, url.as_str())),
        Err(ParseError::OutOfMemory | ParseError::Overflow) => Err(NoMemory),
        Err(_) => Ok(None),
    }
}

/// The page whose URL the text is.
fn page_at(base: &Base, text: &str) -> Option<PageName>
    ensures said { IfSome result (SaysPage base.now text.now) }
    ensures exact { (name : Named) → SaysPage base.now text.now name → result ≡ Some name }
{
    let name = read_page_url(base, text.as_bytes())?;
    let _version = name.version.seconds();
    let _departs = name.departs.seconds();
    Some(name)
}
