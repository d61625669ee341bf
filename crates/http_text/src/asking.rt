ghost use Rattle.std.specs.Prelude.{◌≡◌, ◌<◌, IfOk, IfSome, OnOk};
ghost use Rattle.http_text.specs.declared.request.Request.{Request};
ghost use Rattle.http_text.specs.Request.{IsWholeRequest};
ghost use Rattle.http_text.specs.RequestText.{request_text_of, CanAsk, SaysGet};

use crate::line::{append_line, append_moment};
use connection_uri::Base;
use lc_model::{Moment, NoMemory};
use std::alloc::Global;

/// The text of a GET request: the target, the host, and the moment up to which the asker knows. The connection ends
/// after it (RFC 9112, section 3; RFC 7089, section 2.1.1).
pub fn request_text(
    alloc: Global,
    base: &Base,
    target: &str,
    known: Option<Moment>,
) -> Result<Vec<u8>, NoMemory>
    ensures text { IfOk result (λ text. text.items ≡ request_text_of base.now.authority target.now known) }
    // It is one whole GET request, which says the target.
    ensures whole { IfOk result (λ text. CanAsk target.now text.items
        → (request : Request) × IsWholeRequest text.items request × SaysGet target.now known text.items request) }
{
    let text = text_of(alloc, base.authority(), target, known)?;
    Ok(text)
}

/// The text of a GET of the target at the authority.
fn text_of(
    alloc: Global,
    authority: &str,
    target: &str,
    known: Option<Moment>,
) -> Result<Vec<u8>, NoMemory>
    ensures text { IfOk result (λ text. text.items ≡ request_text_of authority.now target.now known) }
    ensures in_range { OnOk result (IfSome known (λ m. m < 253_402_128_000)) }
{
    let mut text = Vec::new(alloc);
    append_line(&mut text, b"GET ", target.as_bytes(), b" HTTP/1.1")?;
    append_line(&mut text, b"Host: ", authority.as_bytes(), b"")?;
    append_moment(&mut text, b"Accept-Datetime: ", known)?;
    append_line(&mut text, b"Connection: close", b"", b"")?;
    text.extend_from_slice(b"\r\n")?;
    Ok(text)
}
