//! What requests say, and requests as they are written.
ghost use Rattle.std.specs.Prelude.{◌≡◌, IfSome};
ghost use Rattle.http_text.specs.declared.taken.Taken.TheVariants.{Whole as WholeRequest};

use super::recorded::{CURL, CURL_1_0, CURL_HEAD, CURL_POST, CURL_PROXY, NGINX, WGET, WRK};
use crate::written::put_written;
use connection_uri::Base;
use http_text::{Field, HeadRoom, Request, Taken, read_request, request_text};
use lc_model::{Moment, PlainData};
use rows_common::{Draft, Unmade};
use std::alloc::Global;

/// Requests, of which the method, the path, and whether the connection ends are said.
const REQUESTS: [&str; 17] = [
    CURL,
    CURL_1_0,
    CURL_HEAD,
    CURL_POST,
    CURL_PROXY,
    WGET,
    WRK,
    NGINX,
    "GET http://h HTTP/1.0\r\n\r\n",
    "GET http://h?x=/c HTTP/1.0\r\n\r\n",
    "GET /a%2Fb?c?d HTTP/1.0\r\n\r\n",
    "GET / HTTP/1.1\r\nHost: x\r\nConnection: a, \tCLOSE\t,b\r\n\r\n",
    "GET / HTTP/1.1\r\nHost: x\r\nConnection: a\r\nConnection: close\r\n\r\n",
    "GET / HTTP/1.1\r\nHost: x\r\nConnection: \"close\"\r\n\r\n",
    "GET / HTTP/1.1\r\nHost: x\r\nConnection: \"a\\\", close, b\"\r\n\r\n",
    "GET / HTTP/1.1\r\nHost: x\r\nConnection: \"a, b\", close\r\n\r\n",
    "GET / HTTP/1.1\r\nHost: x\r\nConnection: closed\r\n\r\n",
];

/// A request with a query and fields.
const POSTED: &str =
    "POST /a?b=1&b=%C3%BC+x&&c HTTP/1.1\r\nHost:\tx \r\nContent-Length: 2\r\n\r\nab";

/// A line for each of the requests, lines for the query and the fields of one, and lines for two that are written.
pub(super) fn put_requests(alloc: Global, draft: &mut Draft, room: &mut HeadRoom) {
    for bytes in &REQUESTS {
        draft.put_quoted(bytes.as_bytes());
        match request_in(alloc, room, bytes.as_bytes()) {
            Ok(request) => put_request_said(draft, &request),
            Err(Unmade) => draft.lose(),
        }
    }
    match request_in(alloc, room, POSTED.as_bytes()) {
        Ok(request) => put_parts(draft, &request),
        Err(Unmade) => draft.lose(),
    }
    put_asked(alloc, draft);
}

/// What the whole request at the front of the bytes says.
fn request_in(alloc: Global, room: &mut HeadRoom, bytes: &[u8]) -> Result<Request, Unmade> {
    let length = whole_length(room.take_request(bytes)).ok_or("a whole request")?;
    let request = read_request(alloc, &bytes[..length])?;
    Ok(request.copy(alloc)?)
}

fn whole_length(taken: Taken) -> Option<usize>
    ensures { IfSome result (λ length. taken ≡ WholeRequest length) }
{
    match taken {
        Taken::Whole { length } => Some(length),
        _ => None,
    }
}

/// The end of a line: the method, the path, and whether the connection ends.
fn put_request_said(draft: &mut Draft, request: &Request) {
    draft.put(": ");
    draft.put_escaped(request.method.as_slice());
    draft.put(" ");
    draft.put_escaped(request.path.as_slice());
    draft.put(if request.close { ", closes\n" } else { "\n" });
}

/// Lines for the members of the query, decoded, for the fields, without the blanks around their values, and for the body.
fn put_parts(draft: &mut Draft, request: &Request) {
    draft.put("query: ");
    for member in request.query.as_slice() {
        draft.put_all(&[member.name.as_str(), "=", member.value.as_str(), ";"]);
    }
    draft.put("\nfields: ");
    for field in request.fields.as_slice() {
        put_field(draft, field);
    }
    draft.put("\nbody from: ");
    draft.put_shown(&request.body_from);
    draft.put("\n");
}

fn put_field(draft: &mut Draft, field: &Field) {
    draft.put_escaped(field.name.as_slice());
    draft.put(":");
    draft.put_escaped(field.value.as_slice());
    draft.put(";");
}

/// Requests as they are written under a base: of a page, known up to a moment, and of the stops.
fn put_asked(alloc: Global, draft: &mut Draft) {
    match Base::read(alloc, b"http://lc.example:8080/lc/") {
        Ok(Some(base)) => {
            let target = "/lc/connections?departureTime=2024-05-01T08:00:00.000Z";
            let page = request_text(alloc, &base, target, Moment::new(1_714_546_800));
            put_written(draft, "asked for a page: ", page);
            let stops = request_text(alloc, &base, "/lc/stops", None);
            put_written(draft, "asked for stops: ", stops);
        }
        _ => draft.lose(),
    }
}
