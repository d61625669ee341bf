//! Members of JSON as they are read and written.
use json::{Scratch, Writer};
use lc_model::{Moment, NoMemory};
use page_json::{
    delay_at, id_at, json_in, moment_at, needed_text, seconds_at, write_moment, write_number,
    write_text,
};
use rows_common::Draft;
use std::alloc::Global;

/// How deep a text of JSON nests, of which 127 levels are the most.
const LEVELS: [usize; 2] = [127, 128];

/// Half a surrogate pair, which is no text. Numbers, of which one above all floats is none, also in a member that is passed over.
const NO_JSON: [&str; 4] = [
    "{\"x\":\"\\ud83d\"}",
    "{\"x\":\"\\ude00\"}",
    "{\"x\":1e400}",
    "{\"x\":1e-400}",
];

/// Texts of which a delay and seconds are read.
const NUMBERS: [&str; 8] = [
    "[]",
    "{}",
    "{\"x\":1}",
    "{\"x\":0}",
    "{\"x\":-60}",
    "{\"x\":4294967295}",
    "{\"x\":4294967296}",
    "{\"x\":1.0}",
];

/// Texts of which a text and an id are read.
const TEXTS: [&str; 5] = [
    "{}",
    "{\"x\":1}",
    "{\"x\":\"\"}",
    "{\"x\":\"\\u0041\"}",
    "{\"\\u0078\":\"\\ud83d\\uDE00\"}",
];

/// Lines for each of these tables, and for members that are written.
pub(super) fn put_members(alloc: Global, draft: &mut Draft) {
    for levels in &LEVELS {
        put_nested(alloc, draft, *levels);
    }
    for json in &NO_JSON {
        draft.put_all(&[*json, " is JSON: "]);
        put_whether_json(alloc, draft, json.as_bytes());
    }
    for json in &NUMBERS {
        put_numbers(alloc, draft, *json);
    }
    for json in &TEXTS {
        put_text(alloc, draft, *json);
    }
    put_written(alloc, draft);
}

fn put_nested(alloc: Global, draft: &mut Draft, levels: usize) {
    let mut json = Draft::new(alloc);
    json.put_times("[", levels);
    json.put_times("]", levels);
    draft.also(&json);
    draft.put_shown(&levels);
    draft.put(" levels of nesting are JSON: ");
    put_whether_json(alloc, draft, json.as_bytes());
}

fn put_whether_json(alloc: Global, draft: &mut Draft, bytes: &[u8]) {
    let mut scratch = Scratch::new(alloc);
    draft.put_is_read(json_in(alloc, bytes, &mut scratch));
}

/// What is read as a delay and as seconds.
fn put_numbers(alloc: Global, draft: &mut Draft, json: &str) {
    let mut scratch = Scratch::new(alloc);
    match json_in(alloc, json.as_bytes(), &mut scratch) {
        Ok(value) => {
            draft.put_all(&["delay of ", json, ": "]);
            draft.put_read(delay_at(alloc, &value, "x"));
            draft.put_all(&["\nseconds of ", json, ": "]);
            draft.put_read(seconds_at(alloc, &value, "x"));
            draft.put("\n");
        }
        Err(_) => draft.lose(),
    }
}

/// What is read as a text, and whether it is an id.
fn put_text(alloc: Global, draft: &mut Draft, json: &str) {
    let mut scratch = Scratch::new(alloc);
    match json_in(alloc, json.as_bytes(), &mut scratch) {
        Ok(value) => {
            draft.put_all(&["text of ", json, ": "]);
            draft.put_read(needed_text(alloc, &value, "x"));
            draft.put_all(&["\n", json, " has an id: "]);
            draft.put_is_read(id_at(alloc, &value, "x"));
        }
        Err(_) => draft.lose(),
    }
}

/// Members as they are written, and the moment that is read of them.
fn put_written(alloc: Global, draft: &mut Draft) {
    let mut out = Writer::new(Vec::new(alloc));
    match write_members(&mut out) {
        Ok(()) => put_written_text(alloc, draft, out.into_inner().as_slice()),
        Err(NoMemory) => draft.lose(),
    }
}

fn write_members(out: &mut Writer) -> Result<(), NoMemory> {
    out.begin_object()?;
    write_number(out, "a", -60)?;
    write_text(out, "b", "quote \" é")?;
    if let Some(moment) = Moment::new(1_714_546_800) {
        write_moment(out, "c", moment)?;
    }
    out.end_object()?;
    Ok(())
}

// From outside: `stdout` has what Python 3 writes by json.dumps(.., separators=(',', ':'), ensure_ascii=False).
fn put_written_text(alloc: Global, draft: &mut Draft, written: &[u8]) {
    draft.put("members as they are written: ");
    draft.put_escaped(written);
    draft.put("\n");
    let mut scratch = Scratch::new(alloc);
    match json_in(alloc, written, &mut scratch) {
        Ok(value) => {
            draft.put("moment of what is written: ");
            match moment_at(alloc, &value, "c") {
                Ok(moment) => draft.put_shown(&moment.seconds()),
                Err(fault) => draft.put_owned(fault),
            }
            draft.put("\n");
        }
        Err(_) => draft.lose(),
    }
}
