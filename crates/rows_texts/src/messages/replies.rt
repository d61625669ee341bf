//! Replies as they are written.
ghost use Rattle.std.specs.Prelude.{◌≡◌};
ghost use Rattle.http_text.specs.ReplyText.{HasReason};

use crate::written::put_written;
use http_text::{Allow, BodyKind, ReplyParts, reply_text};
use lc_model::{Bytes, Moment, PlainData, Text};
use rows_common::Draft;
use std::alloc::Global;

/// The URL of a page of a version.
const PAGE: &str =
    "http://lc.example/memento/connections?version=2024-05-01T07:00:00.000Z&departureTime=2024-05-01T08:00:00.000Z";

/// The URL of the resource of which versions are chosen.
const GATE: &str = "http://lc.example/connections?departureTime=2024-05-01T08:00:00.000Z";

/// A line for each reply.
pub(super) fn put_replies(alloc: Global, draft: &mut Draft) {
    put_redirect(alloc, draft);
    put_page(alloc, draft);
    put_empty(alloc, draft);
    put_allowed(alloc, draft);
}

/// A reply without a body, which says so.
fn empty(alloc: Global, status: u16) -> ReplyParts
    ensures { result.status ≡ status }
{
    ReplyParts {
        status,
        kind: None,
        length: Some(0),
        location: None,
        memento: None,
        original: None,
        allow: None,
        close: false,
        body: Bytes::from_list(Vec::new(alloc)),
    }
}

fn put_redirect(alloc: Global, draft: &mut Draft) {
    let mut found = empty(alloc, 302);
    found.location = owned(alloc, draft, PAGE);
    found.original = owned(alloc, draft, GATE);
    put_written(draft, "a redirect: ", reply_text(alloc, &found));
}

fn owned(alloc: Global, draft: &mut Draft, text: &str) -> Option<Text> {
    match String::from_str(alloc, text) {
        Ok(text) => Some(Text::from_string(text)),
        Err(_) => {
            draft.lose();
            None
        }
    }
}

fn put_page(alloc: Global, draft: &mut Draft) {
    let mut page = empty(alloc, 200);
    page.kind = Some(BodyKind::Page);
    page.length = Some(2);
    page.memento = Moment::new(1_714_546_800);
    match Vec::from_slice(alloc, b"{}") {
        Ok(body) => page.body = Bytes::from_list(body),
        Err(_) => draft.lose(),
    }
    put_copy(alloc, draft, "a page: ", &page);
}

fn put_copy(alloc: Global, draft: &mut Draft, name: &str, reply: &ReplyParts)
    requires { HasReason reply.now.status }
{
    match reply.copy(alloc) {
        Ok(copy) => put_written(draft, name, reply_text(alloc, &copy)),
        Err(_) => draft.lose(),
    }
}

/// Lines for replies without a body: of stops, and of nothing.
fn put_empty(alloc: Global, draft: &mut Draft) {
    let mut stops = empty(alloc, 200);
    stops.kind = Some(BodyKind::Stops);
    put_written(draft, "stops: ", reply_text(alloc, &stops));
    let mut stored = empty(alloc, 204);
    stored.length = None;
    put_written(draft, "nothing: ", reply_text(alloc, &stored));
}

/// Lines for two refusals that say which methods are allowed.
fn put_allowed(alloc: Global, draft: &mut Draft) {
    let mut refused = empty(alloc, 405);
    refused.allow = Some(Allow::Reading);
    put_written(draft, "allows reading: ", reply_text(alloc, &refused));
    refused.allow = Some(Allow::Posting);
    refused.close = true;
    put_written(draft, "allows posting: ", reply_text(alloc, &refused));
}
