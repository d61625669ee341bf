use super::commands::put_said;
use super::options::{put_client, put_published};
use cli_words::{Command, Publishing, read_words};
use fragmenter::Cutting;
use lc_model::NoMemory;
use rows_common::Draft;
use std::alloc::Global;

/// The command that the arguments of a text say, which spaces part.
pub(super) fn command_of(alloc: Global, words: &str) -> Result<Option<Command>, NoMemory> {
    let mut list = Vec::new(alloc);
    push_words(alloc, &mut list, words)?;
    read_words(alloc, list.as_slice())
}

fn push_words(alloc: Global, list: &mut Vec<String>, words: &str) -> Result<(), NoMemory> {
    for word in words.split(' ') {
        list.push(String::from_str(alloc, word)?)?;
    }
    Ok(())
}

/// What is said of a command.
#[derive(Clone, Copy)]
pub(super) enum Side {
    Words,
    Publishing,
    Client,
}

/// The end of a line: what was read.
pub(super) fn put_read(draft: &mut Draft, read: Result<Option<Command>, NoMemory>, side: Side) {
    put_side(draft, &read, side);
    draft.put("\n");
    // To end a command of ten kinds here would make the proof long.
    drop(read);
}

fn put_side(draft: &mut Draft, read: &Result<Option<Command>, NoMemory>, side: Side) {
    match side {
        Side::Words => put_said(draft, read),
        Side::Publishing => put_published(draft, read),
        Side::Client => put_client(draft, read),
    }
}

/// How the timetable is published.
pub(super) fn put_publishing(draft: &mut Draft, publishing: &Publishing) {
    draft.put(publishing.base.text());
    draft.put(" ");
    draft.put_shown(&publishing.base_moment.seconds());
    match publishing.cutting {
        Cutting::Span(way) => put_way(draft, " span ", way.seconds),
        Cutting::Count(way) => put_way(draft, " count ", way.count),
        Cutting::Whole => put_way(draft, " whole ", 0),
    }
}

fn put_way(draft: &mut Draft, name: &str, number: u32) {
    draft.put(name);
    draft.put_shown(&number);
}
