ghost use Rattle.std.specs.Prelude.{◌≡◌, ◌⊎◌, List, None, Some, IfOk, IfSome, IfNone, IsTrue, ◌↔◌};
ghost use Rattle.lc_model.specs.declared.connection.Connection.{Connection};
ghost use Rattle.lc_model.specs.declared.doc.StopsDoc.{StopsDoc};
ghost use Rattle.lc_model.specs.declared.query.Query.{Query};
ghost use Rattle.csa_scan.specs.StandsFor.{StandsFor};
ghost use Rattle.page_client.specs.Course.{IsOver, TakesOn};
ghost use Rattle.page_client.specs.Sequel.{IsSequel};
ghost use Rattle.page_client.specs.Shown.{wrong_gate};
ghost use Rattle.page_client.specs.declared.outcome.Outcome.{Outcome as OutcomeValue};

use crate::Outcome;
use crate::outcome::{answered, wrong_gate};
use crate::page_reply::last_departure;
use csa_scan::Scan;
use lc_model::{Bytes, Journey, Moment, NoMemory, PageName};
use page_json::Page;
use std::alloc::Global;

/// What comes after a page.
#[derive(Drop)]
pub enum Step {
    /// The page of this name.
    Next(PageName),
    /// The answer: a best journey, or that there is none.
    Last(Option<Journey>),
}

/// Takes a page and says what comes after it. Takes the time of `Scan::take_all`, and for an answer that of
/// `Scan::journey`.
pub fn take(alloc: Global, scan: &mut Scan, page: &Page) -> Result<Step, NoMemory>
    ensures { IfOk result (TakesOn scan.old scan.new page.now) }
{
    scan.take_all(alloc, &page.list)?;
    // There is a least arrival, or none: it says how far one goes on.
    let _best = scan.best();
    match next_of(scan, page) {
        Some(next) => Ok(Step::Next(next)),
        None => Ok(Step::Last(scan.journey(alloc)?)),
    }
}

/// What a client does after a page.
#[derive(Drop)]
pub enum Sequel {
    /// It wants the page of this name.
    Goes(PageName),
    /// It has its outcome.
    Ends(Outcome),
}

/// Takes a page, unless the time gate was wrong to send to it, and says what the client does after it. Takes the time of `take`.
pub fn after_page(
    alloc: Global,
    scan: &mut Scan,
    page: &Page,
    leave: Moment,
    gate: Option<Bytes>,
) -> Result<Sequel, NoMemory>
    ensures wrong { IfOk result (λ sequel. (outcome : OutcomeValue) → wrong_gate page.now leave gate ≡ Some outcome → sequel ≡ Sequel.Ends outcome) }
    ensures right { IfOk result (λ sequel. wrong_gate page.now leave gate ≡ None → IsSequel scan.old scan.new page.now sequel) }
{
    match wrong_gate(alloc, page, leave, gate)? {
        Some(outcome) => Ok(Sequel::Ends(outcome)),
        None => after_right_page(alloc, scan, page),
    }
}

/// Takes a page and says what the client does after it. Takes the time of `take`.
fn after_right_page(alloc: Global, scan: &mut Scan, page: &Page) -> Result<Sequel, NoMemory>
    ensures { IfOk result (IsSequel scan.old scan.new page.now) }
{
    match take(alloc, scan, page)? {
        Step::Next(next) => Ok(Sequel::Goes(next)),
        Step::Last(journey) => Ok(Sequel::Ends(answered(journey))),
    }
}

/// The page to which this one links, unless no later page can be better.
fn next_of(scan: &Scan, page: &Page) -> Option<PageName>
    ensures next { IfSome result (λ next. (page.now.next ≡ Some next) × ((query : Query) (doc : StopsDoc) (taken : List Connection)
        → StandsFor scan.now query doc taken → IsOver query doc taken page.now → ⊥)) }
    ensures last { IfNone result ((query : Query) (doc : StopsDoc) (taken : List Connection)
        → StandsFor scan.now query doc taken → (page.now.next ≡ None) ⊎ IsOver query doc taken page.now) }
{
    let next = page.next?;
    if is_over(scan, page) {
        None
    } else {
        Some(next)
    }
}

/// Whether no page after this one can be better.
fn is_over(scan: &Scan, page: &Page) -> bool
    ensures over { IsTrue result → ((query : Query) (doc : StopsDoc) (taken : List Connection) → StandsFor scan.now query doc taken
        → IsOver query doc taken page.now) }
    ensures only { (query : Query) (doc : StopsDoc) (taken : List Connection) → StandsFor scan.now query doc taken
        → IsOver query doc taken page.now → IsTrue result }
{
    // There is a least arrival, or none: it says where one is done.
    let _best = scan.best();
    match last_departure(page.list.as_slice()) {
        None => false,
        Some(last) => scan.done(last),
    }
}
