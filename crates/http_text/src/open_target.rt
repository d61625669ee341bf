ghost use Rattle.std.specs.Prelude.{◌≡◌, true};
ghost use Rattle.std.specs.List.{list_all};
ghost use Rattle.httparse.specs.Grammar.{EndsInTarget, is_uri_byte};
ghost use Rattle.http_text.specs.OpenTarget.{behind_blanks, ends_as_method, is_open_line};

use httparse::{is_method_token, is_uri_token};

/// Whether the bytes end inside the target of a request line. Takes time linear in them.
#[tactic(auto, using(crate::proofs::OpenLemmas::is_in_target, crate::proofs::OpenLemmas::in_target_is))]
pub fn ends_in_target(bytes: &[u8]) -> bool
    ensures ends { result ≡ true → EndsInTarget bytes.now }
    ensures every_end { EndsInTarget bytes.now → result ≡ true }
{
    is_open_line(behind_blanks(bytes))
}

/// The bytes after the empty lines at their front.
fn behind_blanks(mut bytes: &[u8]) -> &[u8]
    ensures { result.now ≡ behind_blanks bytes.now }
{
    while let [b'\n', rest @ ..] | [b'\r', b'\n', rest @ ..] = bytes {
        bytes = rest;
    }
    bytes
}

/// Whether the bytes are a method, a space, and bytes of a target.
fn is_open_line(bytes: &[u8]) -> bool
    ensures { result ≡ is_open_line bytes.now }
{
    match bytes {
        [byte, rest @ ..] => is_method_token(*byte) && ends_as_method(rest),
        [] => false,
    }
}

/// Whether the bytes are the rest of a method, a space, and bytes of a target.
fn ends_as_method(mut bytes: &[u8]) -> bool
    ensures { result ≡ ends_as_method bytes.now }
{
    while let [byte, rest @ ..] = bytes {
        if *byte == b' ' {
            return are_target_bytes(rest);
        }
        if !is_method_token(*byte) {
            return false;
        }
        bytes = rest;
    }
    false
}

/// Whether each of the bytes may be in a target.
fn are_target_bytes(bytes: &[u8]) -> bool
    ensures { result ≡ list_all is_uri_byte bytes.now }
{
    bytes.iter().all(|byte| is_uri_token(*byte))
}
