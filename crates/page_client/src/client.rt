ghost use Rattle.page_client.specs.Course.{IsSound};

use crate::beginning::{phase_at_first, refusal_of, refused};
use crate::gate::gate_said;
use crate::outcome::wrong;
use crate::phase::Phase;
use crate::request::{ask_gate, ask_page, ask_stops};
use crate::step::{Sequel, after_page};
use crate::stops_reply::stops_said;
use crate::{Outcome, PeerFault, QueryFault, Want};
use connection_uri::Base;
use csa_scan::{BeginFault, Scan};
use lc_model::{Bytes, Moment, NoMemory, PageName, Query, StopsDoc};
use page_json::Page;
use std::alloc::Global;

/// A client of one question. It wants the reply of the time gate, then that of the stops document, then page after page. It
/// receives them, one after the other, until it has its outcome.
#[derive(Drop)]
pub struct Client {
    query: Query,
    phase: Phase,
    version: Option<Moment>,
    /// The time gate's reply, until the first page is taken.
    gate: Option<Bytes>,
    scan: Option<Scan>,
    outcome: Option<Outcome>,
    ghost sound: { ∥ IsSound query gate scan phase ∥₁ },
}

impl Client {
    ghost use Rattle.std.specs.Prelude.{◌≡◌, ◌≢◌, ◌<◌, ◌≤◌, ◌+◌, true, List, None, Some, is_some, Result, Ok, IfOk, OnOk, OnErr};
    ghost use Rattle.std.specs.Option.{option_copied};
    ghost use Rattle.lc_model.specs.declared.connection.Connection.{Connection as Listed};
    ghost use Rattle.lc_model.specs.declared.doc.StopsDoc.{StopsDoc as Recorded};
    ghost use Rattle.lc_model.specs.declared.page.PageName.{PageName as Named};
    ghost use Rattle.page_json.specs.Valid.{IsValidPage};
    ghost use Rattle.page_client.specs.Client.{AfterDoc, AfterStops, StandsFor, TakesPage, shown};
    ghost use Rattle.page_client.specs.Fault.{IsWant};
    ghost use Rattle.page_client.specs.Gate.{IsGateReply};
    ghost use Rattle.page_client.specs.Page.{advances};
    ghost use Rattle.page_client.specs.Request.{Asks, known_at, target_of};
    ghost use Rattle.page_client.specs.Shown.{Begins, StaysOrEnds, after_gate, ended, exchanges_left, is_wrong, spent, want_of, wrong_gate};
    ghost use Rattle.page_client.specs.Stops.{IsStopsReply};
    ghost use Rattle.page_client.specs.declared.fault.PeerFault.{PeerFault as Wrong};
    ghost use Rattle.page_client.specs.declared.outcome.Outcome.TheVariants as outcomes;

    /// A client of the question. It is refused at once where its horizon is not from 1 to 604,800 seconds, and else where
    /// it begins and ends at one stop.
    pub fn new(query: Query) -> Client
        ensures begins { Begins query (shown result) }
        ensures bound { exchanges_left (shown result) ≤ query.horizon + 3 }
    {
        let refusal = refusal_of(&query);
        Client {
            query,
            phase: phase_at_first(refusal),
            version: None,
            gate: None,
            scan: None,
            outcome: refused(refusal),
        }
    }

    /// What the client asks for next.
    pub fn want(&self) -> Want
        ensures { result ≡ want_of (shown self.now).phase }
    {
        match self.phase {
            Phase::Gate => Want::Gate,
            Phase::Stops(_) => Want::Stops,
            Phase::Page(name) => Want::Page(name),
            Phase::Finished => Want::Finished,
        }
    }

    /// How the client ended; none where it has not, or where it had no memory.
    pub fn outcome(&self) -> Option<&Outcome>
        ensures { option_copied result ≡ (shown self.now).outcome }
    {
        self.outcome.as_ref()
    }

    /// How the client ended, taken out of it.
    pub fn into_outcome(self) -> Option<Outcome>
        ensures { result ≡ (shown self).outcome }
    {
        self.outcome
    }

    /// The stops document that the client took, while it reads pages.
    pub fn doc(&self) -> Option<&StopsDoc>
        ensures { (doc : Recorded) (taken : List Listed) → StandsFor self.now doc taken → option_copied result ≡ Some doc }
    {
        match &self.scan {
            Some(scan) => Some(scan.doc()),
            None => None,
        }
    }

    /// The version that the time gate named; none before its reply is taken.
    pub fn version(&self) -> Option<Moment>
        ensures { result ≡ (shown self.now).version }
    {
        self.version
    }

    /// A GET of what the client wants, after which the connection ends.
    pub fn request(&self, alloc: Global, base: &Base) -> Result<Vec<u8>, NoMemory>
        requires { want_of (shown self.now).phase ≢ Want.Finished }
        ensures { let want = want_of (shown self.now).phase in let query = (shown self.now).query in
            IfOk result (λ text. Asks base.now (target_of base.now query want) (known_at query want) text.items) }
    {
        match self.want() {
            Want::Gate => ask_gate(alloc, base, self.query.leave, self.query.known),
            Want::Stops => ask_stops(alloc, base),
            Want::Page(name) => ask_page(alloc, base, name),
            Want::Finished => unreachable!(),
        }
    }

    /// Takes the reply of the time gate. After running out of memory the client is spent: it wants nothing, and has no outcome.
    pub fn give_gate(&mut self, alloc: Global, base: &Base, reply: Vec<u8>) -> Result<(), NoMemory>
        requires { want_of (shown self.old).phase ≡ Want.Gate }
        ensures ok { OnOk result ((said : Result Named Wrong) × IsGateReply base.now (shown self.old).query.leave reply.items said
            × (shown self.new ≡ after_gate reply.items said (shown self.old))) }
        ensures err { OnErr result (shown self.new ≡ spent (shown self.old)) }
        ensures fewer { exchanges_left (shown self.new) < exchanges_left (shown self.old) }
    {
        match gate_said(alloc, base, self.query.leave, reply.as_slice()) {
            Ok(Ok(name)) => {
                self.go_to_stops(name, reply);
                Ok(())
            }
            Ok(Err(fault)) => {
                self.end(wrong(reply, fault));
                Ok(())
            }
            Err(NoMemory) => {
                self.spend();
                Err(NoMemory)
            }
        }
    }

    /// Takes the reply of the stops document. After running out of memory the client is spent.
    pub fn give_stops(&mut self, alloc: Global, reply: Vec<u8>) -> Result<(), NoMemory>
        requires { want_of (shown self.old).phase ≡ Want.Stops }
        ensures ok { OnOk result ((said : Result Recorded Wrong) × IsStopsReply reply.items said × AfterStops self.old reply.items said self.new) }
        ensures err { OnErr result (shown self.new ≡ spent (shown self.old)) }
        ensures fewer { exchanges_left (shown self.new) < exchanges_left (shown self.old) }
    {
        match stops_said(alloc, reply.as_slice()) {
            Ok(Ok(doc)) => self.begin(alloc, &doc),
            Ok(Err(fault)) => {
                self.end(wrong(reply, fault));
                Ok(())
            }
            Err(NoMemory) => {
                self.spend();
                Err(NoMemory)
            }
        }
    }

    /// Takes the page that is wanted, which is valid and goes on, and wants the next one or ends. After running out of memory the client
    /// is spent. Takes the time of `Scan::take_all`, and at the end that of `Scan::journey`.
    pub fn give_page(&mut self, alloc: Global, page: &Page) -> Result<(), NoMemory>
        requires wanted { want_of (shown self.old).phase ≡ Want.Page page.now.name }
        requires valid { IsValidPage page.now }
        requires advances { advances page.now ≡ true }
        ensures ok { OnOk result (TakesPage self.old page.now self.new) }
        ensures query { (shown self.new).query ≡ (shown self.old).query }
        ensures ends { OnOk result (StaysOrEnds (shown self.old).outcome (shown self.new).phase (shown self.new).outcome) }
        ensures wrong { OnOk result ((shown self.old).outcome ≡ None → is_wrong (shown self.new).outcome
            ≡ is_some (wrong_gate page.now (shown self.old).query.leave (shown self.old).gate)) }
        ensures err { OnErr result (shown self.new ≡ spent (shown self.old)) }
        ensures fewer { exchanges_left (shown self.new) < exchanges_left (shown self.old) }
    {
        self.phase = Phase::Finished;
        let gate = self.gate.take();
        let Some(scan) = &mut self.scan else {
            unreachable!()
        };
        match after_page(alloc, scan, page, self.query.leave, gate)? {
            Sequel::Goes(next) => {
                self.phase = Phase::Page(next);
                Ok(())
            }
            Sequel::Ends(outcome) => {
                self.end(outcome);
                Ok(())
            }
        }
    }

    /// Ends the client by an exchange that failed, in which the link's count of faults increased from the one to the other.
    pub fn give_link_fault(&mut self, before: u64, after: u64)
        requires { want_of (shown self.old).phase ≢ Want.Finished }
        ensures { shown self.new ≡ ended (outcomes.LinkFault before after) (shown self.old) }
    {
        self.end(Outcome::LinkFault { before, after });
    }

    /// Ends the client by a reply that fails this test.
    pub fn give_peer_fault(&mut self, reply: Vec<u8>, fault: PeerFault)
        requires wants { want_of (shown self.old).phase ≢ Want.Finished }
        requires failed { ¬ IsWant fault }
        ensures { shown self.new ≡ ended (outcomes.PeerWrong reply.items fault) (shown self.old) }
    {
        self.end(wrong(reply, fault));
    }

    /// Begins the scan, and goes on to the first page.
    fn begin(&mut self, alloc: Global, doc: &StopsDoc) -> Result<(), NoMemory>
        requires { want_of (shown self.old).phase ≡ Want.Stops }
        ensures ok { OnOk result (AfterDoc self.old doc.now self.new) }
        ensures err { OnErr result (shown self.new ≡ spent (shown self.old)) }
        ensures fewer { exchanges_left (shown self.new) < exchanges_left (shown self.old) }
    {
        let Phase::Stops(first) = self.phase else {
            unreachable!()
        };
        match Scan::begin(alloc, &self.query, doc) {
            Ok(scan) => {
                self.scan = Some(scan);
                self.phase = Phase::Page(first);
                Ok(())
            }
            Err(BeginFault::UnknownFrom) => {
                self.end(Outcome::Refused(QueryFault::UnknownFrom));
                Ok(())
            }
            Err(BeginFault::UnknownTo) => {
                self.end(Outcome::Refused(QueryFault::UnknownTo));
                Ok(())
            }
            Err(BeginFault::NoMemory) => {
                self.spend();
                Err(NoMemory)
            }
        }
    }

    fn go_to_stops(&mut self, first: PageName, reply: Vec<u8>)
        requires { want_of (shown self.old).phase ≡ Want.Gate }
        ensures { shown self.new ≡ after_gate reply.items (Ok first) (shown self.old) }
    {
        self.version = Some(first.version);
        self.gate = Some(Bytes::from_list(reply));
        self.phase = Phase::Stops(first);
    }

    fn end(&mut self, outcome: Outcome)
        ensures { shown self.new ≡ ended outcome (shown self.old) }
    {
        self.phase = Phase::Finished;
        self.gate = None;
        self.outcome = Some(outcome);
    }

    fn spend(&mut self)
        ensures { shown self.new ≡ spent (shown self.old) }
    {
        self.phase = Phase::Finished;
        self.gate = None;
    }
}
