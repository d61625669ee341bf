ghost use Rattle.std.specs.Prelude.{◌≡◌, length, map, All, IfOk};
ghost use Rattle.httparse.specs.Spans.{IsWithin, IsHeaderWithin, span_bytes, header_bytes};
ghost use Rattle.http_text.specs.declared.request.Request.{Request as Said};
ghost use Rattle.http_text.specs.Named.{texts_at};
ghost use Rattle.http_text.specs.Request.{field_said, request_said, IsWhole, IsWholeRequest};
ghost use Rattle.http_text.specs.Target.{decoded_text, member_of, members_of};

use crate::connection::closes;
use crate::head::MOST_FIELDS;
use crate::target::{path_of, query_of};
use crate::{Field, Fields, Member, Members, Request};
use form_urlencoded::{decode, raw_pairs};
use httparse::Status;
use httparse::spans::{EMPTY_HEADER_SPAN, HeaderSpan, RequestSpans, parse_request};
use lc_model::{Bytes, NoMemory, Text};
use std::alloc::Global;

/// What one whole request says. Takes time linear in its head.
pub fn read_request(alloc: Global, bytes: &[u8]) -> Result<Request, NoMemory>
    requires { IsWhole bytes.now }
    ensures said { IfOk result (IsWholeRequest bytes.now) }
    ensures only { IfOk result (λ request. (said : Said) → IsWholeRequest bytes.now said → request ≡ said) }
{
    let mut room = [EMPTY_HEADER_SPAN; MOST_FIELDS];
    match parse_request(bytes, &mut room) {
        Ok(Status::Complete(head)) => request_of(alloc, bytes, &room[..head.headers], head),
        Ok(Status::Partial) => unreachable!(),
        Err(_) => unreachable!(),
    }
}

/// What a head says that is in the bytes.
fn request_of(
    alloc: Global,
    bytes: &[u8],
    fields: &[HeaderSpan],
    head: RequestSpans,
) -> Result<Request, NoMemory>
    requires fields { All (IsHeaderWithin (length bytes.now)) fields.now }
    requires method { IsWithin (length bytes.now) head.method }
    requires target { IsWithin (length bytes.now) head.path }
    ensures { IfOk result (λ request. request ≡ request_said (span_bytes bytes.now head.method)
        (span_bytes bytes.now head.path) head.version (texts_at bytes.now fields.now) head.len) }
{
    let target = head.path.of(bytes);
    Ok(Request {
        method: bytes_of(alloc, head.method.of(bytes))?,
        path: bytes_of(alloc, path_of(target))?,
        query: members_of(alloc, query_of(target))?,
        fields: fields_of(alloc, bytes, fields)?,
        body_from: head.len,
        close: closes(bytes, fields, head.version),
    })
}

/// The members of a query, in order. Takes time linear in its bytes.
fn members_of(alloc: Global, query: &[u8]) -> Result<Members, NoMemory>
    ensures { IfOk result (λ members. members ≡ members_of query.now) }
{
    let mut members = Vec::new(alloc);
    for (name, value) in raw_pairs(query) {
        members.push(member_of(alloc, name, value)?)?;
    }
    Ok(Members::from_list(members))
}

fn member_of(alloc: Global, name: &[u8], value: &[u8]) -> Result<Member, NoMemory>
    ensures { IfOk result (λ member. member ≡ member_of (name.now, value.now)) }
{
    Ok(Member {
        name: decoded(alloc, name)?,
        value: decoded(alloc, value)?,
    })
}

fn decoded(alloc: Global, text: &[u8]) -> Result<Text, NoMemory>
    ensures { IfOk result (λ decoded. decoded ≡ decoded_text text.now) }
{
    let text = decode(alloc, text)?;
    Ok(Text::from_string(text.into_owned(alloc)?))
}

/// The fields, in order. Takes time linear in their bytes.
fn fields_of(alloc: Global, bytes: &[u8], fields: &[HeaderSpan]) -> Result<Fields, NoMemory>
    requires { All (IsHeaderWithin (length bytes.now)) fields.now }
    ensures { IfOk result (λ list. list ≡ map field_said (texts_at bytes.now fields.now)) }
{
    let mut list = Vec::with_capacity(alloc, fields.len())?;
    for field in fields {
        list.push(field_of(alloc, bytes, *field)?)?;
    }
    Ok(Fields::from_list(list))
}

fn field_of(alloc: Global, bytes: &[u8], field: HeaderSpan) -> Result<Field, NoMemory>
    requires { IsHeaderWithin (length bytes.now) field }
    ensures { IfOk result (λ said. said ≡ field_said (header_bytes bytes.now field)) }
{
    Ok(Field {
        name: bytes_of(alloc, field.name.of(bytes))?,
        value: bytes_of(alloc, field.value.of(bytes))?,
    })
}

fn bytes_of(alloc: Global, bytes: &[u8]) -> Result<Bytes, NoMemory>
    ensures { IfOk result (λ list. list ≡ bytes.now) }
{
    Ok(Bytes::from_list(Vec::from_slice(alloc, bytes)?))
}
