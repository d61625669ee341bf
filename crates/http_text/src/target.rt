ghost use Rattle.std.specs.Prelude.{◌≡◌, ◌||◌, ◌==◌};
ghost use Rattle.std.specs.List.{before_first, after_first};
ghost use Rattle.http_text.specs.Bytes.{question_mark};
ghost use Rattle.http_text.specs.Target.{is_origin_form, is_absolute_form, ends_authority, from_first, behind_authority, path_of, query_of};

use crate::front::{first, first_place};
use crate::named::is_same;

/// Whether the target is a path, or a URL of http (RFC 9112, sections 3.2.1 and 3.2.2).
pub fn has_taken_form(target: &[u8]) -> bool
    ensures { result ≡ (is_origin_form target.now || is_absolute_form target.now) }
{
    is_origin_form(target) || is_absolute_form(target)
}

fn is_origin_form(target: &[u8]) -> bool
    ensures { result ≡ is_origin_form target.now }
{
    match target {
        [byte, ..] => *byte == b'/',
        [] => false,
    }
}

fn is_absolute_form(target: &[u8]) -> bool
    ensures { result ≡ is_absolute_form target.now }
{
    is_same(first(target, 7), b"http://")
}

/// The path of a target, up to its first question mark and not decoded; `/` where there is none.
pub fn path_of(target: &[u8]) -> &[u8]
    ensures { result.now ≡ path_of target.now }
{
    match split_at_mark(behind_authority(target)).0 {
        [] => b"/",
        path => path,
    }
}

/// What follows the first question mark of a target.
pub fn query_of(target: &[u8]) -> &[u8]
    ensures { result.now ≡ query_of target.now }
{
    split_at_mark(behind_authority(target)).1
}

/// The target from its path on.
fn behind_authority(target: &[u8]) -> &[u8]
    ensures { result.now ≡ behind_authority target.now }
{
    if is_absolute_form(target) {
        from_authority_end(target.split_at(7).1)
    } else {
        target
    }
}

/// The bytes from the first slash or question mark on.
fn from_authority_end(mut bytes: &[u8]) -> &[u8]
    ensures { result.now ≡ from_first ends_authority bytes.now }
{
    while let [byte, rest @ ..] = bytes {
        if *byte == b'/' || *byte == b'?' {
            return bytes;
        }
        bytes = rest;
    }
    bytes
}

/// What comes before the first question mark, and what follows it.
fn split_at_mark(bytes: &[u8]) -> (&[u8], &[u8])
    ensures before { result.0.now ≡ before_first (λ b. b == question_mark) bytes.now }
    ensures after { result.1.now ≡ after_first (λ b. b == question_mark) bytes.now }
{
    match first_place(bytes, b'?') {
        Some(at) => (&bytes[..at], &bytes[at + 1..]),
        None => (bytes, &[]),
    }
}
