//! How a case is run, and what is printed of it.
use crate::folders::folder_of;
use lc_cli::{Status, code, run};
use lc_io::{Door, MemFolder, MemSink, SureDoor};
use lc_links::{ClosedLink, FaultyLink};
use lc_model::Bytes;
use lc_world::{Link, ListLink};
use rows_common::{Draft, Unmade};
use std::alloc::Global;
use tiny_feed::TINY;

pub const A_TO_D: &str = "ask tiny A D 2024-05-01T08:00:00Z";

/// Arguments, and the texts of the files over which they run.
#[derive(Clone, Copy)]
pub struct Case<'a> {
    pub words: &'a str,
    /// Files that take the place of those of the feed, or are beside them.
    pub first: &'a [(&'a str, &'a str)],
    pub feed: &'a [(&'a str, &'a str)],
}

/// The arguments over the feed Tiny and these files.
pub fn over_tiny<'a>(words: &'a str, first: &'a [(&'a str, &'a str)]) -> Case<'a> {
    Case {
        words,
        first,
        feed: &TINY,
    }
}

/// The numbers of the read, of the exchange and of the write that fail. They are counted from 1, so that at 0 none fails.
#[derive(Clone, Copy)]
pub struct Fails {
    pub read: u64,
    pub exchange: u64,
    pub write: u64,
}

pub const NONE: Fails = Fails {
    read: 0,
    exchange: 0,
    write: 0,
};

/// What a command runs over, beside its link and its door.
#[derive(Drop)]
pub struct Stage {
    words: Vec<String>,
    folder: MemFolder,
    out: MemSink,
}

/// Runs a case where each reply comes as the publisher gave it.
pub fn put_run(alloc: Global, draft: &mut Draft, case: &Case<'_>) {
    put_failing(alloc, draft, case, NONE);
}

/// Runs a case where calls fail.
pub fn put_failing(alloc: Global, draft: &mut Draft, case: &Case<'_>, fails: Fails) {
    match stage_of(alloc, case, fails) {
        Ok(mut stage) => put_faulty(alloc, draft, &mut stage, fails.exchange),
        Err(Unmade) => draft.lose(),
    }
}

fn put_faulty(alloc: Global, draft: &mut Draft, stage: &mut Stage, fails: u64) {
    match Vec::from_array(alloc, [fails]) {
        Ok(fails) => {
            let _ = put_linked(
                alloc,
                draft,
                stage,
                FaultyLink::new(ClosedLink::new(), fails),
            );
        }
        Err(_) => draft.lose(),
    }
}

/// Runs a case over a link that gives these replies.
pub fn put_list(alloc: Global, draft: &mut Draft, case: &Case<'_>, replies: &[&str]) {
    match run_list(alloc, draft, case, replies) {
        Ok(_) => {}
        Err(Unmade) => draft.lose(),
    }
}

/// Runs a case over a link that gives these replies, and gives that link back.
pub fn run_list(
    alloc: Global,
    draft: &mut Draft,
    case: &Case<'_>,
    replies: &[&str],
) -> Result<ListLink, Unmade> {
    let mut stage = stage_of(alloc, case, NONE)?;
    run_stage(alloc, draft, &mut stage, replies)
}

fn run_stage(
    alloc: Global,
    draft: &mut Draft,
    stage: &mut Stage,
    replies: &[&str],
) -> Result<ListLink, Unmade> {
    let link = link_of(alloc, replies)?;
    Ok(put_linked(alloc, draft, stage, link))
}

fn link_of(alloc: Global, replies: &[&str]) -> Result<ListLink, Unmade> {
    Ok(ListLink::new(list_of(alloc, replies)?)?)
}

fn list_of(alloc: Global, replies: &[&str]) -> Result<Vec<Bytes>, Unmade> {
    let mut list = Vec::new(alloc);
    for reply in replies {
        push_reply(alloc, &mut list, *reply)?;
    }
    Ok(list)
}

fn push_reply(alloc: Global, list: &mut Vec<Bytes>, reply: &str) -> Result<(), Unmade> {
    list.push(Bytes::from_list(reply.as_bytes().to_vec(alloc)?))?;
    Ok(())
}

pub fn stage_of(alloc: Global, case: &Case<'_>, fails: Fails) -> Result<Stage, Unmade> {
    let folder = folder_of(alloc, case, fails.read)?;
    let words = words_of(alloc, case.words)?;
    let out = sink_of(alloc, fails.write)?;
    Ok(Stage { words, folder, out })
}

fn sink_of(alloc: Global, fails: u64) -> Result<MemSink, Unmade> {
    let fails = Vec::from_array(alloc, [fails])?;
    Ok(MemSink::new(alloc, fails)?)
}

/// The arguments between spaces. An empty text has none.
pub fn words_of(alloc: Global, words: &str) -> Result<Vec<String>, Unmade> {
    let mut list = Vec::new(alloc);
    if !words.is_empty() {
        push_words(alloc, &mut list, words)?;
    }
    Ok(list)
}

fn push_words(alloc: Global, list: &mut Vec<String>, words: &str) -> Result<(), Unmade> {
    for word in words.split(' ') {
        push_word(alloc, list, word)?;
    }
    Ok(())
}

fn push_word(alloc: Global, list: &mut Vec<String>, word: &str) -> Result<(), Unmade> {
    list.push(String::from_str(alloc, word)?)?;
    Ok(())
}

/// Runs the arguments of the stage over a link, which is given back, and a door to which nobody comes.
pub fn put_linked<L: Link>(alloc: Global, draft: &mut Draft, stage: &mut Stage, link: L) -> L {
    match SureDoor::new(alloc, Vec::new(alloc)) {
        Ok(mut door) => {
            let link = put_over(alloc, draft, stage, &mut door, link);
            draft.put("\n");
            link
        }
        Err(_) => {
            draft.lose();
            link
        }
    }
}

/// Runs the arguments of the stage over a door and a link, and gives the link back.
pub fn put_over<L: Link, D: Door>(
    alloc: Global,
    draft: &mut Draft,
    stage: &mut Stage,
    door: &mut D,
    link: L,
) -> L {
    let (status, link) = run(
        alloc,
        stage.words.as_slice(),
        &mut stage.folder,
        link,
        door,
        &mut stage.out,
    );
    put_end(draft, &status, stage.out.written());
    link
}

/// Adds the counts of a fault, the status and the output.
fn put_end(draft: &mut Draft, status: &Status, output: &[u8]) {
    match status {
        Status::FolderFault { before, after } => put_counts(draft, "folder", *before, *after),
        Status::SinkFault { before, after } => put_counts(draft, "sink", *before, *after),
        Status::DoorFault { before, after } => put_counts(draft, "door", *before, *after),
        _ => {}
    }
    draft.put("=> ");
    draft.put_shown(&code(status));
    draft.put("\n");
    draft.put(text_of(output));
}

fn put_counts(draft: &mut Draft, what: &str, before: u64, after: u64) {
    draft.put(what);
    draft.put(" fault ");
    draft.put_shown(&before);
    draft.put(" ");
    draft.put_shown(&after);
    draft.put("\n");
}

/// The text of these bytes, or none where they are no text.
pub fn text_of(bytes: &[u8]) -> &str {
    std::str::from_utf8(bytes).unwrap_or("")
}

pub fn put_line(draft: &mut Draft, line: &str) {
    draft.put(line);
    draft.put("\n");
}
