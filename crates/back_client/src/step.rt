ghost use Rattle.std.specs.Prelude.{◌≡◌, ◌⊎◌, ℕ, List, Option, None, Some, IfOk, IfSome, IfNone, IsTrue};
ghost use Rattle.lc_model.specs.declared.connection.Connection.{Connection};
ghost use Rattle.lc_model.specs.declared.doc.StopsDoc.{StopsDoc};
ghost use Rattle.lc_model.specs.declared.query.Query.{Query};
ghost use Rattle.page_client.specs.declared.outcome.Outcome.{Outcome as OutcomeValue};
ghost use Rattle.page_json.specs.declared.page.Page.{Page as PageValue};
ghost use Rattle.back_scan.specs.StandsFor.{StandsFor};
ghost use Rattle.back_client.specs.Steps.{GoesBelow, GoesTo, IsOverAt, TakesBack, TakesReply};
ghost use Rattle.back_client.specs.Wrong.{wrong_of};

use crate::page::{Place, wrong_of};
use back_scan::BackScan;
use connection_uri::Base;
use lc_model::{Moment, NoMemory, PageName};
use page_client::{Outcome, answered, page_of, wrong};
use page_json::Page;
use std::alloc::Global;

/// What comes after a page.
#[derive(Drop)]
pub enum Sequel {
    /// The page of this name.
    Goes(PageName),
    /// The end.
    Ends(Outcome),
}

/// Whether no page before the one of this name can be better.
fn is_over(scan: &BackScan, name: PageName) -> bool
    ensures over { IsTrue result → ((query : Query) (doc : StopsDoc) (taken : List Connection) → StandsFor scan.now query doc taken
        → IsOverAt query doc taken name.departs) }
    ensures only { (query : Query) (doc : StopsDoc) (taken : List Connection) → StandsFor scan.now query doc taken
        → IsOverAt query doc taken name.departs → IsTrue result }
{
    // There is a latest departure, or none: it says where one is done.
    let _latest = scan.latest();
    scan.done(name.departs)
}

/// The page to which this one leads back, unless no earlier page can be better.
fn previous_of(scan: &BackScan, page: &Page) -> Option<PageName>
    ensures previous { IfSome result (λ previous. (page.now.previous ≡ Some previous) × ((query : Query) (doc : StopsDoc) (taken : List Connection)
        → StandsFor scan.now query doc taken → IsOverAt query doc taken page.now.name.departs → ⊥)) }
    ensures last { IfNone result ((query : Query) (doc : StopsDoc) (taken : List Connection)
        → StandsFor scan.now query doc taken → (page.now.previous ≡ None) ⊎ IsOverAt query doc taken page.now.name.departs) }
{
    let previous = page.previous?;
    if is_over(scan, page.name) {
        None
    } else {
        Some(previous)
    }
}

/// Takes a page and says what comes after it. Takes the time of `BackScan::take_back`, and for an answer that of
/// `BackScan::journey`.
fn take(alloc: Global, scan: &mut BackScan, page: &Page) -> Result<Sequel, NoMemory>
    ensures takes { IfOk result (TakesBack scan.old scan.new page.now) }
    ensures goes { IfOk result (GoesTo page.now.previous) }
{
    scan.take_back(alloc, &page.list)?;
    // There is a latest departure, or none: it says how far one goes on.
    let _latest = scan.latest();
    match previous_of(scan, page) {
        Some(previous) => Ok(Sequel::Goes(previous)),
        None => {
            let journey = scan.journey(alloc)?;
            Ok(Sequel::Ends(answered(journey)))
        }
    }
}

/// Takes a page, unless it fails a test, and says what comes after it.
fn after_page(
    alloc: Global,
    scan: &mut BackScan,
    arrive: Moment,
    place: Place,
    page: &Page,
    reply: Vec<u8>,
) -> Result<Sequel, NoMemory>
    ensures wrong { IfOk result (λ sequel. (outcome : OutcomeValue) → wrong_of arrive place page.now reply.items ≡ Some outcome → sequel ≡ Sequel.Ends outcome) }
    ensures right { IfOk result (λ sequel. wrong_of arrive place page.now reply.items ≡ None → TakesBack scan.old scan.new page.now sequel) }
    ensures below { IfOk result (GoesBelow page.now.name.departs) }
{
    match wrong_of(alloc, arrive, place, page, reply)? {
        Some(outcome) => Ok(Sequel::Ends(outcome)),
        None => take(alloc, scan, page),
    }
}

/// Takes the page that a reply says, or ends by the first test that the reply fails.
pub fn take_reply(
    alloc: Global,
    base: &Base,
    scan: &mut BackScan,
    arrive: Moment,
    place: Place,
    name: PageName,
    reply: Vec<u8>,
) -> Result<Sequel, NoMemory>
    ensures takes { IfOk result (TakesReply base.now arrive place name reply.items scan.old scan.new) }
    ensures below { IfOk result (GoesBelow name.departs) }
{
    match page_of(alloc, base, name, reply.as_slice()) {
        Ok(page) => after_page(alloc, scan, arrive, place, &page, reply),
        Err(fault) if fault.is_want() => Err(NoMemory),
        Err(fault) => Ok(Sequel::Ends(wrong(reply, fault))),
    }
}
