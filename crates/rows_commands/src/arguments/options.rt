//! What the options of a question say.
use super::words::{Side, command_of, put_publishing, put_read};
use cli_words::{Ask, Command};
use lc_model::{Moment, NoMemory, Text};
use rows_common::{Draft, Unmade};
use std::alloc::Global;

/// Options of a question that say how the timetable is published.
const PUBLISHING: [&str; 27] = [
    "--days 3",
    "--base http://x",
    "--base=http://x:8080/lc/ --cuts whole",
    "--base=",
    "--base https://x/",
    "--base http://x/lc",
    "--base http://x/ --base http://x/",
    "--base-moment 2024-05-01T06:00:00Z",
    "--base-moment=2024-05-01T06:00:00.000Z --base=http://x/",
    "--base-moment=",
    "--base-moment 2024-05-01",
    "--base http://x/ --cuts=span:1",
    "--base http://x/ --cuts span:0086400",
    "--cuts span:0",
    "--cuts span:86401",
    "--cuts span:",
    "--cuts span",
    "--base http://x/ --cuts count:1",
    "--base http://x/ --cuts count:1000000",
    "--cuts count:0",
    "--cuts count:1000001",
    "--cuts count:00000000001",
    "--cuts=",
    "--cuts Whole",
    "--cuts whole:1",
    "--cuts whole --cuts whole",
    "--port 80",
];

/// Options of a question that say what its client is, and which moment's knowledge is meant.
const CLIENT: [&str; 18] = [
    "--days 3",
    "--cache 1",
    "--cache=0010000",
    "--cache 0",
    "--cache 10001",
    "--cache=",
    "--cache 5 --cache=5",
    "--update d60.pb",
    "--update=a=b",
    "--update=",
    "--update=-x",
    "--update -x",
    "--update x --update x",
    "--known 2024-05-01T06:00:00Z",
    "--known=1970-01-01T00:00:00Z --cache 2",
    "--known=",
    "--known yesterday",
    "--known",
];

/// A line for each row of these tables.
pub(super) fn put_options(alloc: Global, draft: &mut Draft) {
    for options in &PUBLISHING {
        put_published_by(alloc, draft, *options);
    }
    for options in &CLIENT {
        put_client_by(alloc, draft, *options);
    }
}

/// The command of a question with these options.
fn asked_by(alloc: Global, options: &str) -> Result<Option<Command>, NoMemory> {
    let mut words = Draft::new(alloc);
    words.put("ask tiny A D 2024-05-01T08:00:00Z ");
    words.put(options);
    match words.made() {
        Ok(()) => command_of(alloc, words.as_str()),
        Err(Unmade) => Err(NoMemory),
    }
}

fn put_published_by(alloc: Global, draft: &mut Draft, options: &str) {
    draft.put("published by ");
    draft.put(options);
    draft.put(": ");
    put_read(draft, asked_by(alloc, options), Side::Publishing);
}

/// How the timetable is published.
pub(super) fn put_published(draft: &mut Draft, read: &Result<Option<Command>, NoMemory>) {
    match read {
        Ok(Some(Command::Ask(ask))) => put_publishing(draft, &ask.published.publishing),
        other => put_other(draft, other),
    }
}

/// What is no question.
fn put_other(draft: &mut Draft, read: &Result<Option<Command>, NoMemory>) {
    match read {
        Ok(Some(Command::Check(_))) => draft.put("check"),
        Ok(Some(Command::Ask(_))) => draft.put("ask"),
        Ok(Some(Command::Replay(_))) => draft.put("replay"),
        Ok(Some(Command::Serve(_))) => draft.put("serve"),
        Ok(Some(Command::Plan(_))) => draft.put("plan"),
        Ok(Some(Command::Drill(_))) => draft.put("drill"),
        Ok(Some(Command::Arrive(_))) => draft.put("arrive"),
        Ok(Some(Command::Fewest(_))) => draft.put("fewest"),
        Ok(Some(Command::Relay(_))) => draft.put("relay"),
        Ok(None) => draft.put("none"),
        Err(_) => draft.lose(),
    }
}

fn put_client_by(alloc: Global, draft: &mut Draft, options: &str) {
    draft.put("client by ");
    draft.put(options);
    draft.put(": ");
    put_read(draft, asked_by(alloc, options), Side::Client);
}

/// What the options of a client say, and which moment's knowledge is meant.
pub(super) fn put_client(draft: &mut Draft, read: &Result<Option<Command>, NoMemory>) {
    match read {
        Ok(Some(Command::Ask(ask))) => put_client_of(draft, ask),
        other => put_other(draft, other),
    }
}

fn put_client_of(draft: &mut Draft, ask: &Ask) {
    draft.put_shown(&ask.cache);
    draft.put(" ");
    put_known(draft, &ask.published.update, ask.query.known);
}

/// The name of the file with a message, and which moment's knowledge is meant.
pub(super) fn put_known(draft: &mut Draft, update: &Option<Text>, known: Option<Moment>) {
    draft.put(match update {
        Some(name) => name.as_str(),
        None => "-",
    });
    draft.put(match known {
        Some(_) => " known ",
        None => " newest ",
    });
    draft.put_shown(&known.map_or(0, |moment| moment.seconds()));
}
