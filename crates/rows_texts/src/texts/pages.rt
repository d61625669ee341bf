//! Pages and stops documents: read and written again, and their first faults.
ghost use Rattle.page_json.specs.Valid.{IsValidPage};

use super::document_texts::{DOCUMENTS, STOPS};
use super::other_pages::put_other_pages;
use super::page_texts::{EMPTY, PAGES, THREE, TINY, WORDS};
use crate::written::put_written;
use connection_uri::Base;
use lc_model::{Connection, PlainData};
use page_json::{Page, page_text, read_page, read_stops, stops_text};
use rows_common::{Draft, Unmade};
use std::alloc::Global;

const NO_STOPS: &str = "{\"@id\":\"http://lc.example/stops\",\"changes\":[],\"stops\":[]}";

/// Lines for texts that are read and written again, for the pages and the documents, and for what a page's connections say.
pub(super) fn put_pages(alloc: Global, draft: &mut Draft) {
    match Base::read(alloc, b"http://lc.example/") {
        Ok(Some(base)) => put_pages_under(alloc, draft, &base),
        _ => draft.lose(),
    }
}

fn put_pages_under(alloc: Global, draft: &mut Draft, base: &Base) {
    for json in &[TINY, THREE, EMPTY] {
        put_page_again(alloc, draft, base, json.as_bytes());
    }
    for json in &[STOPS, NO_STOPS] {
        put_stops_again(alloc, draft, base, json.as_bytes());
    }
    put_faults_under(alloc, draft, base);
    put_three(alloc, draft, base);
    put_other_pages(alloc, draft, base);
}

fn put_faults_under(alloc: Global, draft: &mut Draft, base: &Base) {
    for json in &PAGES {
        put_page(alloc, draft, base, *json);
    }
    draft.put("page {\"@id\":\"\\xff\"}: ");
    put_page_said(alloc, draft, base, b"{\"@id\":\"\xff\"}");
    for json in &DOCUMENTS {
        put_stops(alloc, draft, *json);
    }
}

/// A line with the text of the page that was read of a text.
fn put_page_again(alloc: Global, draft: &mut Draft, base: &Base, json: &[u8]) {
    match read_page(alloc, base, json) {
        Ok(page) => put_copy_again(alloc, draft, base, &page),
        Err(_) => draft.lose(),
    }
}

fn put_copy_again(alloc: Global, draft: &mut Draft, base: &Base, page: &Page)
    requires { IsValidPage page.now }
{
    match page.copy(alloc) {
        Ok(page) => put_written(draft, "page written again: ", page_text(alloc, base, &page)),
        Err(_) => draft.lose(),
    }
}

/// A line with the text of the document that was read of a text.
fn put_stops_again(alloc: Global, draft: &mut Draft, base: &Base, json: &[u8]) {
    match read_stops(alloc, json) {
        Ok(doc) => {
            let again = stops_text(alloc, base, &doc);
            put_written(draft, "stops written again: ", again);
        }
        Err(_) => draft.lose(),
    }
}

/// A line with what is read of a text in which words are short for long parts.
fn put_page(alloc: Global, draft: &mut Draft, base: &Base, json: &str) {
    draft.put_all(&["page ", json, ": "]);
    match written_out(alloc, json) {
        Ok(whole) => put_page_said(alloc, draft, base, whole.as_str().as_bytes()),
        Err(Unmade) => draft.lose(),
    }
}

/// The text with what its words are short for.
fn written_out(alloc: Global, json: &str) -> Result<String, Unmade> {
    let mut whole = String::from_str(alloc, json)?;
    for &(word, meaning) in &WORDS {
        whole = whole.as_str().replace(alloc, word, meaning)?;
    }
    Ok(whole)
}

/// The end of a line: how many connections the page has that the bytes are, or their first fault.
fn put_page_said(alloc: Global, draft: &mut Draft, base: &Base, bytes: &[u8]) {
    match read_page(alloc, base, bytes) {
        Ok(page) => put_count(draft, page.list.as_slice().len(), " connections"),
        Err(fault) => draft.put_owned(fault),
    }
    draft.put("\n");
}

fn put_count(draft: &mut Draft, count: usize, name: &str) {
    draft.put_shown(&count);
    draft.put(name);
}

/// A line with how many stops and changes the document has that the text is, or its first fault.
fn put_stops(alloc: Global, draft: &mut Draft, json: &str) {
    draft.put_all(&["stops ", json, ": "]);
    match read_stops(alloc, json.as_bytes()) {
        Ok(doc) => {
            put_count(draft, doc.stops.as_slice().len(), " stops ");
            put_count(draft, doc.changes.as_slice().len(), " changes");
        }
        Err(fault) => draft.put_owned(fault),
    }
    draft.put("\n");
}

/// What the page `THREE` and its connections say.
fn put_three(alloc: Global, draft: &mut Draft, base: &Base) {
    match read_page(alloc, base, THREE.as_bytes()) {
        Ok(page) => put_parts(draft, &page),
        Err(_) => draft.lose(),
    }
}

fn put_parts(draft: &mut Draft, page: &Page) {
    draft.put("connections: ");
    draft.put_shown(&page.list.as_slice().len());
    for connection in page.list.as_slice() {
        put_connection(draft, connection);
    }
    draft.put("\ndeparts: ");
    draft.put_shown(&page.name.departs.seconds());
    draft.put("\nhas no next page: ");
    draft.put_shown(&page.next.is_none());
    draft.put("\nhas a page before it: ");
    draft.put_shown(&page.previous.is_some());
    draft.put("\n");
}

/// Whether one may board and alight, and the delays of the departure and of the arrival.
fn put_connection(draft: &mut Draft, connection: &Connection) {
    draft.put("\nboards ");
    draft.put_shown(&connection.board);
    draft.put(", alights ");
    draft.put_shown(&connection.alight);
    draft.put(": ");
    draft.put_shown(&connection.dep_delay);
    draft.put(" ");
    draft.put_shown(&connection.arr_delay);
}
