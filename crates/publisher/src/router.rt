ghost use Rattle.std.specs.Prelude.{◌≡◌, ◌≤◌, ℕ, List, IfOk, IfSome, OnErr, OnOk, drop, length, true};
ghost use Rattle.http_text.specs.Request.{IsWhole, IsWholeRequest};
ghost use Rattle.publisher.specs.Held.{side_of};
ghost use Rattle.publisher.specs.Writable.{IsSoundResponse, IsWritable};
ghost use Rattle.lc_world.specs.Sides.Asked.{asked_by_posting, asked_by_reading, asked_of, is_head, is_reading, is_under};
ghost use Rattle.lc_world.specs.Sides.Reply.{IsNextSide, IsReply};
ghost use Rattle.lc_world.specs.Sides.Response.{IsGateResponse, IsMovedTo, IsNegotiated, IsPageResponse, IsResponseTo, IsSentOf, IsStopsSent, asked_at};
ghost use Rattle.lc_world.specs.Sides.Side.{has_version};
ghost use Rattle.lc_world.specs.declared.sides.asked.Asked.{Asked as AskedFor};
ghost use Rattle.lc_world.specs.declared.sides.asked.Asked.TheVariants.{Gate as TheGate, Page as ThePage, Update as AnUpdate};

use crate::Publisher;
use crate::parameters::{departure, field_value, is_same, version_said};
use connection_uri::{Base, behind};
use fragmenter::Fragmenter;
use http_text::{Allow, Request, read_request};
use lc_model::{Moment, NoMemory, PageName};
use lc_world::{Asked, Response};
use memento::negotiate;
use std::alloc::Global;

/// What a request asks for, by its path and its method.
fn asked(base: &Base, accepts_updates: bool, path: &[u8], method: &[u8]) -> Asked
    ensures { result ≡ asked_of base.now accepts_updates path.now method.now }
{
    if is_under(base, b"connections", path) {
        by_reading(method, Asked::Gate)
    } else if is_under(base, b"memento/connections", path) {
        by_reading(method, Asked::Page)
    } else if is_under(base, b"stops", path) {
        by_reading(method, Asked::Stops)
    } else if accepts_updates && is_under(base, b"updates", path) {
        by_posting(method, Asked::Update)
    } else {
        Asked::Nothing
    }
}

fn by_reading(method: &[u8], asked: Asked) -> Asked
    ensures { result ≡ asked_by_reading method.now asked }
{
    if is_reading(method) {
        asked
    } else {
        Asked::OtherMethod(Allow::Reading)
    }
}

fn by_posting(method: &[u8], asked: Asked) -> Asked
    ensures { result ≡ asked_by_posting method.now asked }
{
    if is_same(method, b"POST") {
        asked
    } else {
        Asked::OtherMethod(Allow::Posting)
    }
}

/// Whether the method only reads: GET or HEAD.
fn is_reading(method: &[u8]) -> bool
    ensures { result ≡ is_reading method.now }
{
    is_same(method, b"GET") || is_head(method)
}

pub(crate) fn is_head(method: &[u8]) -> bool
    ensures { result ≡ is_head method.now }
{
    is_same(method, b"HEAD")
}

/// Whether the path is the base's with this after it.
fn is_under(base: &Base, tail: &[u8], path: &[u8]) -> bool
    ensures { result ≡ is_under base.now tail.now path.now }
{
    match behind(path, base.path().as_bytes()) {
        Some(rest) => is_same(rest, tail),
        None => false,
    }
}

/// The body of a request.
fn body_of<'a>(bytes: &'a [u8], request: &Request) -> &'a [u8]
    requires { request.now.body_from ≤ length bytes.now }
    ensures { result.now ≡ drop request.now.body_from bytes.now }
{
    &bytes[request.body_from..]
}

impl<G: Fragmenter + Drop> Publisher<G> {
    /// The reply to the bytes of one whole request. Where these bring a message that is taken, it is admitted. For a page it
    /// takes the time of the store's rows, and that of the version's departures too where its cuts are not cached. Everything else takes the
    /// time of the reply and of the request.
    pub fn answer(&mut self, alloc: Global, bytes: &[u8]) -> Result<Vec<u8>, NoMemory>
        requires { IsWhole bytes.now }
        ensures reply { IfOk result (λ reply. IsReply (side_of G.cuts_of self.old) bytes.now reply.items) }
        ensures next { OnOk result (IsNextSide (side_of G.cuts_of self.old) bytes.now (side_of G.cuts_of self.new)) }
        ensures cutting { self.new.cutting ≡ self.old.cutting }
        ensures unchanged { OnErr result (self.new ≡ self.old) }
    {
        let request = read_request(alloc, bytes)?;
        self.answer_to(alloc, &request, bytes)
    }

    /// The reply to the request that the bytes are.
    fn answer_to(
        &mut self,
        alloc: Global,
        request: &Request,
        bytes: &[u8],
    ) -> Result<Vec<u8>, NoMemory>
        requires { IsWholeRequest bytes.now request.now }
        ensures reply { IfOk result (λ reply. IsReply (side_of G.cuts_of self.old) bytes.now reply.items) }
        ensures next { OnOk result (IsNextSide (side_of G.cuts_of self.old) bytes.now (side_of G.cuts_of self.new)) }
        ensures cutting { self.new.cutting ≡ self.old.cutting }
        ensures unchanged { OnErr result (self.new ≡ self.old) }
    {
        match self.asked(request) {
            Asked::Update => self.update(alloc, request, body_of(bytes, request)),
            asked => {
                let response = self.respond(alloc, request, asked)?;
                self.reply(alloc, request, &response)
            }
        }
    }

    /// What a request asks for.
    fn asked(&self, request: &Request) -> Asked
        ensures { result ≡ asked_at (side_of G.cuts_of self.now) request.now }
    {
        asked(
            &self.options.base,
            self.options.accept_updates,
            request.path.as_slice(),
            request.method.as_slice(),
        )
    }

    /// What is said to a request that asks for this, and is not that a message is admitted. It takes the time of a page.
    fn respond(
        &mut self,
        alloc: Global,
        request: &Request,
        asked: Asked,
    ) -> Result<Response, NoMemory>
        requires { asked ≡ AnUpdate → ⊥ }
        ensures said { (body : List ℕ) → IfOk result
            (λ response. IsSoundResponse response → IsResponseTo (side_of G.cuts_of self.old) request.now body asked response) }
        ensures writable { IfOk result IsWritable }
        ensures same { self.new ≡ self.old }
    {
        match asked {
            Asked::Gate => self.at_gate(alloc, request),
            Asked::Page => self.at_page(alloc, request),
            Asked::Stops => Ok(self.stops()),
            Asked::OtherMethod(allow) => Ok(Response::OtherMethod(allow)),
            Asked::Update | Asked::Nothing => Ok(Response::Status(404)),
        }
    }

    fn stops(&self) -> Response
        ensures said { IsStopsSent (side_of G.cuts_of self.now) result }
        ensures writable { IsWritable result }
    {
        // The document is as its type has it.
        let _doc = &self.doc;
        Response::Stops
    }

    fn at_gate(&mut self, alloc: Global, request: &Request) -> Result<Response, NoMemory>
        ensures said { (body : List ℕ) → IfOk result (IsResponseTo (side_of G.cuts_of self.old) request.now body TheGate) }
        ensures writable { IfOk result IsWritable }
        ensures same { self.new ≡ self.old }
    {
        let departs = departure(request);
        let version = self.negotiated(request);
        self.gate_response(alloc, departs, version)
    }

    /// The version that a request at the time gate means. None where its Accept-Datetime is no date. Linear in the versions.
    fn negotiated(&self, request: &Request) -> Option<Moment>
        ensures meant { IsNegotiated (side_of G.cuts_of self.now) request.now result }
        ensures there { IfSome result (λ version. has_version (side_of G.cuts_of self.now) version ≡ true) }
    {
        negotiate(
            self.store.versions(),
            field_value(b"accept-datetime", request.fields.as_slice()),
        )
    }

    fn gate_response(
        &mut self,
        alloc: Global,
        departs: Option<Moment>,
        version: Option<Moment>,
    ) -> Result<Response, NoMemory>
        requires { IfSome version (λ version. has_version (side_of G.cuts_of self.old) version ≡ true) }
        ensures said { IfOk result (IsGateResponse (side_of G.cuts_of self.old) departs version) }
        ensures writable { IfOk result IsWritable }
        ensures same { self.new ≡ self.old }
    {
        match (departs, version) {
            (Some(departs), Some(version)) => self.moved_to(alloc, version, departs),
            _ => Ok(Response::Status(400)),
        }
    }

    fn moved_to(
        &mut self,
        alloc: Global,
        version: Moment,
        departs: Moment,
    ) -> Result<Response, NoMemory>
        requires { has_version (side_of G.cuts_of self.old) version ≡ true }
        ensures said { IfOk result (IsMovedTo (side_of G.cuts_of self.old) version departs) }
        ensures writable { IfOk result IsWritable }
        ensures same { self.new ≡ self.old }
    {
        let place = self.place(alloc, version, departs)?;
        let _version = version.seconds();
        let _cut = place.cut.seconds();
        Ok(Response::Found {
            page: PageName {
                version,
                departs: place.cut,
            },
            departs,
        })
    }

    fn at_page(&mut self, alloc: Global, request: &Request) -> Result<Response, NoMemory>
        ensures said { (body : List ℕ) → IfOk result
            (λ response. IsSoundResponse response → IsResponseTo (side_of G.cuts_of self.old) request.now body ThePage response) }
        ensures writable { IfOk result IsWritable }
        ensures same { self.new ≡ self.old }
    {
        let departs = departure(request);
        let version = version_said(request);
        self.page_response(alloc, version, departs)
    }

    fn page_response(
        &mut self,
        alloc: Global,
        version: Option<Moment>,
        departs: Option<Moment>,
    ) -> Result<Response, NoMemory>
        ensures said { IfOk result (λ response. IsSoundResponse response → IsPageResponse (side_of G.cuts_of self.old) version departs response) }
        ensures writable { IfOk result IsWritable }
        ensures same { self.new ≡ self.old }
    {
        match (version, departs) {
            (Some(version), Some(departs)) => self.sent(alloc, version, departs),
            _ => Ok(Response::Status(400)),
        }
    }

    fn sent(
        &mut self,
        alloc: Global,
        version: Moment,
        departs: Moment,
    ) -> Result<Response, NoMemory>
        ensures said { IfOk result (λ response. IsSoundResponse response
            → IsSentOf (side_of G.cuts_of self.old) (has_version (side_of G.cuts_of self.old) version) version departs response) }
        ensures writable { IfOk result IsWritable }
        ensures same { self.new ≡ self.old }
    {
        if !self.store.has(version) {
            return Ok(Response::Status(404));
        }
        let page = self.page(alloc, version, departs)?;
        Ok(Response::Page(page))
    }
}
