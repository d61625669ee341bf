//! The page of `TINY` as others may write it: read as the same page, or its first fault.
ghost use Rattle.page_json.specs.Valid.{IsValidPage};

use super::page_texts::TINY;
use connection_uri::Base;
use page_json::{Page, page_text, read_page};
use rows_common::Draft;
use std::alloc::Global;

// What is changed in the text of `TINY`: a name of the change, the part that goes and what comes in its place.
const CHANGES: [(&str, &str, &str); 14] = [
    ("nothing changed", "TINY", "TINY"),
    ("blanks", "\":", "\" : "),
    ("a line feed at the end", "}\"}}", "}\"}}\n"),
    ("escaped slashes", "://", ":\\/\\/"),
    ("an escaped letter in the URLs", "http:", "\\u0068ttp:"),
    (
        "another order of members",
        "\"@type\":\"Connection\",\"arrivalDelay\":0",
        "\"arrivalDelay\":0,\"@type\":\"Connection\"",
    ),
    (
        "a list of that name before its own",
        "{\"@context\":{",
        "{\"@context\":{\"@graph\":[],",
    ),
    (
        "another text for allowed",
        "\"gtfs:dropOffType\":\"gtfs:Regular\"",
        "\"gtfs:dropOffType\":\"gtfs:Irregular\"",
    ),
    ("the URL of another trip", "trips/T1/", "trips/T2/"),
    (
        "a member twice",
        "\"@type\":\"Connection\"",
        "\"arrivalDelay\":9,\"@type\":\"Connection\"",
    ),
    (
        "a moment without its fraction",
        "T08:10:00.000Z",
        "T08:10:00Z",
    ),
    ("a plus sign", "\"arrivalDelay\":0", "\"arrivalDelay\":+0"),
    ("a needless escape in an id", "stops/B", "stops/%42"),
    (
        "a next page of another version",
        "1970-01-01T00:00:00.000Z&departureTime=2024-05-01T09",
        "1970-01-01T00:00:01.000Z&departureTime=2024-05-01T09",
    ),
];

/// A line for each change.
pub(super) fn put_other_pages(alloc: Global, draft: &mut Draft, base: &Base) {
    for &(name, part, other) in &CHANGES {
        draft.put_all(&["page with ", name, ": "]);
        match TINY.replace(alloc, part, other) {
            Ok(text) => put_said(alloc, draft, base, text.as_str().as_bytes()),
            Err(_) => draft.lose(),
        }
    }
}

/// The end of a line: whether the text says the page of `TINY`, or its first fault.
fn put_said(alloc: Global, draft: &mut Draft, base: &Base, json: &[u8]) {
    match read_page(alloc, base, json) {
        Ok(page) => put_is_tiny(alloc, draft, base, &page),
        Err(fault) => draft.put_owned(fault),
    }
    draft.put("\n");
}

fn put_is_tiny(alloc: Global, draft: &mut Draft, base: &Base, page: &Page)
    requires { IsValidPage page.now }
{
    match page_text(alloc, base, page) {
        Ok(text) if text.as_slice() == TINY.as_bytes() => draft.put("the same page"),
        Ok(text) => draft.put_escaped(text.as_slice()),
        Err(_) => draft.lose(),
    }
}
