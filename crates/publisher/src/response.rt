ghost use Rattle.std.specs.Prelude.{◌≡◌, IfOk, OnOk};
ghost use Rattle.connection_uri.specs.Base.{BaseParts};
ghost use Rattle.http_text.specs.ReplyText.{reply_text_of};
ghost use Rattle.lc_model.specs.declared.doc.StopsDoc.{StopsDoc as Doc};
ghost use Rattle.page_json.specs.Tree.{stops_text_of};
ghost use Rattle.publisher.specs.Held.{side_of};
ghost use Rattle.page_json.specs.Sound.{IsSoundPage};
ghost use Rattle.page_json.specs.Valid.{IsValidPage};
ghost use Rattle.publisher.specs.Writable.{IsSoundResponse, IsWritable};
ghost use Rattle.lc_world.specs.Sides.Reply.{bare_parts, found_parts, method_parts, page_parts, parts_of, sent_parts, stops_parts, text_said};

use crate::Publisher;
use crate::router::is_head;
use connection_uri::{Base, page_url};
use fragmenter::Fragmenter;
use http_text::{Allow, BodyKind, ReplyParts, Request, reply_text};
use lc_model::{Bytes, Moment, NoMemory, PageName};
use lc_world::Response;
use memento::gate_url;
use page_json::{Page, page_text};
use std::alloc::Global;

/// A status and nothing else.
fn bare_parts(alloc: Global, close: bool, status: u16) -> ReplyParts
    ensures { result ≡ bare_parts close status }
{
    ReplyParts {
        status,
        kind: None,
        length: if status == 204 { None } else { Some(0) },
        location: None,
        memento: None,
        original: None,
        allow: None,
        close,
        body: Bytes::from_list(Vec::new(alloc)),
    }
}

fn method_parts(alloc: Global, close: bool, allow: Allow) -> ReplyParts
    ensures { result ≡ method_parts close allow }
{
    let mut parts = bare_parts(alloc, close, 405);
    parts.allow = Some(allow);
    parts
}

fn found_parts(
    alloc: Global,
    base: &Base,
    close: bool,
    page: PageName,
    departs: Moment,
) -> Result<ReplyParts, NoMemory>
    ensures { IfOk result (λ parts. parts ≡ found_parts base.now close page departs) }
{
    let location = page_url(alloc, base, page)?;
    let original = gate_url(alloc, base, departs)?;
    let mut parts = bare_parts(alloc, close, 302);
    parts.location = Some(location);
    parts.original = Some(original);
    Ok(parts)
}

/// Linear in the page.
fn page_parts(alloc: Global, base: &Base, close: bool, page: &Page) -> Result<ReplyParts, NoMemory>
    requires { IsValidPage page.now }
    ensures parts { IfOk result (λ parts. parts ≡ page_parts base.now close page.now) }
    ensures sound { OnOk result (IsSoundPage page.now) }
{
    let original = gate_url(alloc, base, page.name.departs)?;
    let body = page_text(alloc, base, page)?;
    let mut parts = bare_parts(alloc, close, 200);
    parts.kind = Some(BodyKind::Page);
    parts.length = Some(body.len() as u64);
    parts.memento = Some(page.name.version);
    parts.original = Some(original);
    parts.body = Bytes::from_list(body);
    Ok(parts)
}

/// The text is that of a document. Linear in the text.
fn stops_parts(alloc: Global, close: bool, text: &[u8]) -> Result<ReplyParts, NoMemory>
    ensures { (base : BaseParts) (doc : Doc) → text.now ≡ stops_text_of base doc → IfOk result (λ parts. parts ≡ stops_parts base close doc) }
{
    let body = Vec::from_slice(alloc, text)?;
    let mut parts = bare_parts(alloc, close, 200);
    parts.kind = Some(BodyKind::Stops);
    parts.length = Some(body.len() as u64);
    parts.body = Bytes::from_list(body);
    Ok(parts)
}

/// The parts that are sent to a HEAD or another method.
fn sent_parts(alloc: Global, head: bool, mut parts: ReplyParts) -> ReplyParts
    ensures { result ≡ sent_parts head parts }
{
    if head {
        parts.body = Bytes::from_list(Vec::new(alloc));
    }
    parts
}

impl<G: Fragmenter + Drop> Publisher<G> {
    fn parts(&self, alloc: Global, close: bool, response: &Response) -> Result<ReplyParts, NoMemory>
        requires { IsWritable response.now }
        ensures parts { IfOk result (λ parts. parts ≡ parts_of self.now.base self.now.doc close response.now) }
        ensures sound { OnOk result (IsSoundResponse response.now) }
    {
        let base = &self.options.base;
        match response {
            Response::Status(status) => Ok(bare_parts(alloc, close, *status)),
            Response::OtherMethod(allow) => Ok(method_parts(alloc, close, *allow)),
            Response::Found { page, departs } => found_parts(alloc, base, close, *page, *departs),
            Response::Page(page) => page_parts(alloc, base, close, page),
            Response::Stops => stops_parts(alloc, close, self.stops_text.as_slice()),
        }
    }

    /// The text of the reply that says this to a request. Linear in the reply.
    pub(crate) fn reply(
        &self,
        alloc: Global,
        request: &Request,
        response: &Response,
    ) -> Result<Vec<u8>, NoMemory>
        requires { IsWritable response.now }
        ensures text { IfOk result
            (λ text. text.items ≡ text_said (side_of G.cuts_of self.now) request.now response.now) }
        ensures sound { OnOk result (IsSoundResponse response.now) }
    {
        let parts = self.parts(alloc, request.close, response)?;
        let sent = sent_parts(alloc, is_head(request.method.as_slice()), parts);
        reply_text(alloc, &sent)
    }
}
