//! What the arguments of each command say.
use super::asking::{ARRIVES, FEWESTS, put_arrive, put_fewest};
use super::drills::{DRILLS, put_drill};
use super::network::{PLANS, RELAYS, SERVES, put_plan, put_relay, put_serve};
use super::words::{Side, command_of, put_publishing, put_read};
use cli_words::{Ask, Check, Command, FeedWindow, Replay, read_words};
use lc_model::{NoMemory, Query, ServiceDate};
use lc_time::date_text;
use rows_common::Draft;
use std::alloc::Global;
use std::fmt::Display;
use std::str::from_utf8;

/// Arguments of `check` and `ask`, arguments of no command among them.
const COMMANDS: [&str; 57] = [
    "check tiny 20240501",
    "check tiny 20240501 --days 14",
    "check tiny 20240501 --zone posix:CET-1CEST,M3.5.0,M10.5.0/3",
    "--days=062 check tiny 20240501",
    "check --days=062 tiny --change 0 20240501 --zone=x",
    "check  20240501",
    "check tiny 20240501 --days 0",
    "check tiny 20240501 --days 63",
    "check tiny 20240501 --days 4294967298",
    "check tiny 20240501 --days=-5",
    "check tiny 20240501 --days=",
    "check tiny 20240501 --days",
    "check tiny 20240501 --days -- 7",
    "check tiny 20240501 --change 86400",
    "check tiny 20240501 --change 86401",
    "check tiny 20240501 --zone=",
    "check tiny 20240501 --zone=-x",
    "check tiny 20240501 --zone -x",
    "check tiny 20240501 --cache 5",
    "check tiny 20240501 --base http://x/",
    "check tiny 20240501 --cuts whole",
    "check tiny 20240501 --update x",
    "check tiny 20240501 -d 5",
    "check tiny 20240501 -",
    "check -- - 20240501",
    "check -- -tiny 20240501",
    "check -- -- 20240501",
    "check tiny -- 20240501 --days",
    "check tiny 20240501 x",
    "check tiny",
    "check tiny 20240230",
    "check tiny 19700109",
    "check tiny 19700110",
    "check tiny 99991209",
    "check tiny 99991210",
    "ask tiny A D 2024-05-01T08:00:00Z",
    "ask tiny -- A D 2024-05-01T08:00:00Z",
    "ask --days=3 tiny A D 2024-05-01T08:00:00Z",
    "ask tiny A --days 5 D 2024-05-01T08:00:00Z --change=60",
    "ask --horizon=0 tiny A D 2024-05-01T08:00:00Z",
    "ask tiny A D 2024-05-01T08:00:00Z --horizon 4294967295",
    "ask tiny A D 2024-05-01T08:00:00Z --horizon 4294967296",
    "ask tiny A D 2024-05-01T08:00:00Z --horizon=",
    "ask tiny A D 2024-05-01T08:00:00Z --horizon=-1",
    "check tiny 20240501 --horizon 60",
    "ask tiny A D yesterday",
    "ask tiny A D 2024-05-01T08:00:00Z --days 3 --days 3",
    "ask tiny  D 2024-05-01T08:00:00Z",
    "ask tiny A D 1970-01-10T23:59:59Z",
    "ask tiny A D 1970-01-11T00:00:00Z",
    "ask tiny A D 9999-12-14T23:59:59Z",
    "ask tiny A D 9999-12-14T23:59:59Z --days 4",
    "ask tiny A D 9999-12-15T00:00:00Z --days 1",
    "ask --help",
    "--help",
    "help",
    "",
];

/// Arguments of `replay`.
const REPLAYS: [&str; 32] = [
    "replay tiny 20240501 s.csv",
    "replay -- tiny 20240501 s.csv",
    "replay tiny --days 7 20240501 --cache=100 s.csv --change=0120",
    "replay --days=3 tiny 20240501 s.csv",
    "replay tiny 20240501 s.csv --zone=file:x --change 60 --base http://x/lc/ --base-moment 2024-05-01T06:00:00Z --cuts count:4",
    "replay --cache 1 --cuts=whole tiny 20240501 s.csv",
    "replay --cache 10000 -- tiny 20240501 -s",
    "replay tiny 99991210 s.csv --days 6",
    "replay tiny 20240501 ",
    "replay tiny 20240501",
    "replay tiny 20240501 --cache 5",
    "replay tiny 20240501 s.csv x",
    "replay tiny s.csv 20240501",
    "replay tiny 20240501 -s",
    "replay tiny 20240501 -",
    "replay tiny 20240501 -- -",
    "replay tiny 99991210 s.csv",
    "replay tiny 20240501 s.csv --days 3 --days=3",
    "replay tiny 20240501 s.csv --days 63",
    "replay tiny 20240501 s.csv --change 86401",
    "replay tiny 20240501 s.csv --zone=-x",
    "replay tiny 20240501 s.csv --base x",
    "replay tiny 20240501 s.csv --cuts span:0",
    "replay tiny 20240501 s.csv --base-moment yesterday",
    "replay tiny 20240501 s.csv --cache 0",
    "replay tiny 20240501 s.csv --cache 10001",
    "replay tiny 20240501 s.csv --cache",
    "replay tiny 20240501 s.csv --update d60.pb",
    "replay tiny 20240501 s.csv --known 2024-05-01T06:00:00Z",
    "replay tiny 20240501 s.csv --horizon=60",
    "replay tiny 20240501 s.csv --script s.csv",
    "replay --help",
];

/// A line for each row of these tables, and one for no argument.
pub(super) fn put_commands(alloc: Global, draft: &mut Draft) {
    put_table(alloc, draft, &COMMANDS);
    put_table(alloc, draft, &REPLAYS);
    put_table(alloc, draft, &SERVES);
    put_table(alloc, draft, &PLANS);
    put_table(alloc, draft, &DRILLS);
    put_table(alloc, draft, &FEWESTS);
    put_table(alloc, draft, &ARRIVES);
    put_table(alloc, draft, &RELAYS);
    draft.put("no word: ");
    put_read(draft, read_words(alloc, &[]), Side::Words);
}

fn put_table(alloc: Global, draft: &mut Draft, table: &[&str]) {
    for words in table {
        put_words(alloc, draft, *words);
    }
}

fn put_words(alloc: Global, draft: &mut Draft, words: &str) {
    draft.put("\"");
    draft.put(words);
    draft.put("\": ");
    put_read(draft, command_of(alloc, words), Side::Words);
}

/// What the arguments of a command say.
pub(super) fn put_said(draft: &mut Draft, read: &Result<Option<Command>, NoMemory>) {
    match read {
        Ok(Some(Command::Check(check))) => put_check(draft, check),
        Ok(Some(Command::Ask(ask))) => put_ask(draft, ask),
        Ok(Some(Command::Replay(replay))) => put_replay(draft, replay),
        Ok(Some(Command::Serve(serve))) => put_serve(draft, serve),
        Ok(Some(Command::Plan(plan))) => put_plan(draft, plan),
        Ok(Some(Command::Drill(drill))) => put_drill(draft, drill),
        Ok(Some(Command::Arrive(arrive))) => put_arrive(draft, arrive),
        Ok(Some(Command::Fewest(fewest))) => put_fewest(draft, fewest),
        Ok(Some(Command::Relay(relay))) => put_relay(draft, relay),
        Ok(None) => draft.put("none"),
        Err(_) => draft.lose(),
    }
}

fn put_check(draft: &mut Draft, check: &Check) {
    draft.put("check ");
    draft.put(check.window.feed.as_str());
    put_window(draft, &check.window);
}

/// A window without its feed.
pub(super) fn put_window(draft: &mut Draft, window: &FeedWindow) {
    put_date(draft, window.first);
    put_word(draft, &window.days);
    put_word(draft, &window.zone.as_str());
    put_word(draft, &window.change);
}

/// A space, and what is shown after it.
pub(super) fn put_word<T: Display>(draft: &mut Draft, shown: &T) {
    draft.put(" ");
    draft.put_shown(shown);
}

/// A space, and a date.
fn put_date(draft: &mut Draft, date: ServiceDate) {
    let date = date_text(date);
    draft.put(" ");
    draft.put(from_utf8(&date).unwrap_or("?"));
}

fn put_ask(draft: &mut Draft, ask: &Ask) {
    draft.put("ask ");
    draft.put(ask.published.window.feed.as_str());
    put_question(draft, &ask.query);
    put_window(draft, &ask.published.window);
}

/// A question: its stops, when it leaves, and its horizon.
pub(super) fn put_question(draft: &mut Draft, query: &Query) {
    put_word(draft, &query.from.as_str());
    put_word(draft, &query.to.as_str());
    put_word(draft, &query.leave.seconds());
    put_word(draft, &query.horizon);
}

fn put_replay(draft: &mut Draft, replay: &Replay) {
    draft.put("replay ");
    draft.put(replay.window.feed.as_str());
    put_date(draft, replay.window.first);
    put_word(draft, &replay.script.as_str());
    put_word(draft, &replay.window.days);
    put_word(draft, &replay.window.zone.as_str());
    put_word(draft, &replay.window.change);
    draft.put(" ");
    put_publishing(draft, &replay.publishing);
    put_word(draft, &replay.cache);
}
