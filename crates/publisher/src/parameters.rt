ghost use Rattle.std.specs.Prelude.{◌≡◌, IfSome, find};
ghost use Rattle.std.specs.Option.{option_copied};
ghost use Rattle.std.specs.Str.{str_eq_ignore_ascii_case};
ghost use Rattle.http_text.specs.declared.field.Field.{Field as FieldSaid};
ghost use Rattle.http_text.specs.declared.member.Member.{Member as MemberSaid};
ghost use Rattle.lc_world.specs.Sides.Asked.{field_value, is_same, member_value};
ghost use Rattle.lc_world.specs.Sides.Response.{IsDeparture, IsVersion, says_length};

use crate::place::first_moment;
use http_text::{Field, Member, Request};
use lc_model::Moment;
use lc_time::read_iso;

/// The moment of departure that a request says, moment 0 where it says none. None where what it says is no moment.
pub(crate) fn departure(request: &Request) -> Option<Moment>
    ensures { IsDeparture request.now result }
{
    match member_value(b"departureTime", request.query.as_slice()) {
        None => Some(first_moment()),
        Some(text) => read_iso(text),
    }
}

/// The version that a request says. None where it says none, or what it says is no moment.
pub(crate) fn version_said(request: &Request) -> Option<Moment>
    ensures { IsVersion request.now result }
{
    match member_value(b"version", request.query.as_slice()) {
        None => None,
        Some(text) => read_iso(text),
    }
}

/// Whether the request says the length of its body.
pub(crate) fn says_length(request: &Request) -> bool
    ensures { result ≡ says_length request.now }
{
    field_value(b"content-length", request.fields.as_slice()).is_some()
}

/// The value of the first member of this name. Linear in the members.
fn member_value<'a>(name: &[u8], query: &'a [Member]) -> Option<&'a [u8]>
    ensures { option_copied result ≡ member_value name.now query.now }
{
    match member_named(name, query) {
        Some(member) => Some(member.value.as_str().as_bytes()),
        None => None,
    }
}

fn member_named<'a>(name: &[u8], query: &'a [Member]) -> Option<&'a Member>
    ensures { option_copied result ≡ find (λ (m : MemberSaid). is_same m.name name.now) query.now }
{
    query
        .iter()
        .find(|member| is_same(member.name.as_str().as_bytes(), name))
}

/// The value of the first field of this name, in letters of either case. Linear in the fields.
pub(crate) fn field_value<'a>(name: &[u8], fields: &'a [Field]) -> Option<&'a [u8]>
    ensures { option_copied result ≡ field_value name.now fields.now }
{
    match field_named(name, fields) {
        Some(field) => Some(field.value.as_slice()),
        None => None,
    }
}

fn field_named<'a>(name: &[u8], fields: &'a [Field]) -> Option<&'a Field>
    ensures { option_copied result ≡ find (λ (f : FieldSaid). str_eq_ignore_ascii_case f.name name.now) fields.now }
{
    fields
        .iter()
        .find(|field| field.name.as_slice().eq_ignore_ascii_case(name))
}

/// Whether these are the same bytes.
pub(crate) fn is_same(text: &[u8], other: &[u8]) -> bool
    ensures { result ≡ is_same text.now other.now }
{
    text == other
}
