ghost use Rattle.std.specs.Prelude.{◌≡◌, ◌++◌, ◌-◌, ◌<◌, length, drop, IfOk, IfSome, OnOk};
ghost use Rattle.http_text.specs.ReplyText.{reason_of, HasReason, status_line, kind_line, length_line, location_lines, link_line, allow_line, close_line, target_lines, body_lines, reply_text_of, IsReadable, reply_said};
ghost use Rattle.http_text.specs.Reply.{IsReply};

use crate::line::{append_line, append_moment};
use crate::{Allow, BodyKind, ReplyParts};
use itoa::Buffer;
use lc_model::{NoMemory, Text};
use std::alloc::Global;

/// The text of a reply: its lines in the order of the parts, an empty line, and the body (RFC 9112, section 4).
pub fn reply_text(alloc: Global, reply: &ReplyParts) -> Result<Vec<u8>, NoMemory>
    requires { HasReason reply.now.status }
    ensures text { IfOk result (λ text. text.items ≡ reply_text_of reply.now) }
    // It is read back with its status, location, memento and body.
    ensures read { IfOk result (λ text. IsReadable reply.now text.items
        → IsReply text.items (reply_said reply.now text.items)) }
    ensures body { IfOk result (λ text.
        drop (length text.items - length reply.now.body) text.items ≡ reply.now.body) }
{
    let text = text_of(alloc, reply)?;
    Ok(text)
}

fn text_of(alloc: Global, reply: &ReplyParts) -> Result<Vec<u8>, NoMemory>
    ensures text { IfOk result (λ text. text.items ≡ reply_text_of reply.now) }
    ensures in_range { OnOk result (IfSome reply.now.memento (λ m. m < 253_402_128_000)) }
{
    let mut text = Vec::new(alloc);
    append_lines(&mut text, reply)?;
    text.extend_from_slice(b"\r\n")?;
    text.extend_from_slice(reply.body.as_slice())?;
    Ok(text)
}

/// Appends the lines of the head.
fn append_lines(text: &mut Vec<u8>, reply: &ReplyParts) -> Result<(), NoMemory>
    ensures text { OnOk result (text.new.items ≡ text.old.items
        ++ (status_line reply.now.status ++ body_lines reply.now ++ target_lines reply.now ++ allow_line reply.now.allow ++ close_line reply.now.close)) }
    ensures in_range { OnOk result (IfSome reply.now.memento (λ m. m < 253_402_128_000)) }
{
    append_status(text, reply.status)?;
    append_body_lines(text, reply)?;
    append_target_lines(text, reply)?;
    append_allow(text, reply.allow)?;
    append_close(text, reply.close)?;
    Ok(())
}

/// The reason phrase of a status in use, and nothing for another.
fn reason_of(status: u16) -> &'static str
    ensures { result.now ≡ reason_of status }
{
    match status {
        200 => "OK",
        204 => "No Content",
        302 => "Found",
        400 => "Bad Request",
        404 => "Not Found",
        405 => "Method Not Allowed",
        409 => "Conflict",
        411 => "Length Required",
        413 => "Content Too Large",
        431 => "Request Header Fields Too Large",
        507 => "Insufficient Storage",
        _ => "",
    }
}

fn append_status(text: &mut Vec<u8>, status: u16) -> Result<(), NoMemory>
    ensures { OnOk result (text.new.items ≡ text.old.items ++ status_line status) }
{
    let reason = reason_of(status);
    text.extend_from_slice(b"HTTP/1.1 ")?;
    append_line(
        text,
        Buffer::new().format(status).as_bytes(),
        b" ",
        reason.as_bytes(),
    )
}

/// Appends the lines on the body.
fn append_body_lines(text: &mut Vec<u8>, reply: &ReplyParts) -> Result<(), NoMemory>
    ensures { OnOk result (text.new.items ≡ text.old.items ++ body_lines reply.now) }
{
    append_kind(text, reply.kind)?;
    append_length(text, reply.length)
}

fn append_kind(text: &mut Vec<u8>, kind: Option<BodyKind>) -> Result<(), NoMemory>
    ensures { OnOk result (text.new.items ≡ text.old.items ++ kind_line kind) }
{
    match kind {
        None => Ok(()),
        Some(BodyKind::Page) => append_line(text, b"Content-Type: ", b"application/ld+json", b""),
        Some(BodyKind::Stops) => append_line(text, b"Content-Type: ", b"application/json", b""),
    }
}

fn append_length(text: &mut Vec<u8>, length: Option<u64>) -> Result<(), NoMemory>
    ensures { OnOk result (text.new.items ≡ text.old.items ++ length_line length) }
{
    match length {
        None => Ok(()),
        Some(length) => append_line(
            text,
            b"Content-Length: ",
            Buffer::new().format(length).as_bytes(),
            b"",
        ),
    }
}

/// Appends the lines on where pages are and of which version.
fn append_target_lines(text: &mut Vec<u8>, reply: &ReplyParts) -> Result<(), NoMemory>
    ensures text { OnOk result (text.new.items ≡ text.old.items ++ target_lines reply.now) }
    ensures in_range { OnOk result (IfSome reply.now.memento (λ m. m < 253_402_128_000)) }
{
    append_location(text, &reply.location)?;
    append_moment(text, b"Memento-Datetime: ", reply.memento)?;
    append_link(text, &reply.original)
}

fn append_location(text: &mut Vec<u8>, location: &Option<Text>) -> Result<(), NoMemory>
    ensures { OnOk result (text.new.items ≡ text.old.items ++ location_lines location.now) }
{
    match location {
        None => Ok(()),
        Some(url) => {
            append_line(text, b"Location: ", url.as_str().as_bytes(), b"")?;
            append_line(text, b"Vary: accept-datetime", b"", b"")
        }
    }
}

fn append_link(text: &mut Vec<u8>, original: &Option<Text>) -> Result<(), NoMemory>
    ensures { OnOk result (text.new.items ≡ text.old.items ++ link_line original.now) }
{
    match original {
        None => Ok(()),
        Some(url) => append_line(
            text,
            b"Link: <",
            url.as_str().as_bytes(),
            b">; rel=\"original timegate\"",
        ),
    }
}

fn append_allow(text: &mut Vec<u8>, allow: Option<Allow>) -> Result<(), NoMemory>
    ensures { OnOk result (text.new.items ≡ text.old.items ++ allow_line allow) }
{
    match allow {
        None => Ok(()),
        Some(Allow::Reading) => append_line(text, b"Allow: ", b"GET, HEAD", b""),
        Some(Allow::Posting) => append_line(text, b"Allow: ", b"POST", b""),
    }
}

fn append_close(text: &mut Vec<u8>, close: bool) -> Result<(), NoMemory>
    ensures { OnOk result (text.new.items ≡ text.old.items ++ close_line close) }
{
    if close {
        append_line(text, b"Connection: close", b"", b"")
    } else {
        Ok(())
    }
}
