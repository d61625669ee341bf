//! Clients that ask a publisher of Tiny over the link handed in, of which an exchange fails or none.
ghost use Rattle.timetable.specs.Scope.{IsWindow};

use crate::folders::folder_of;
use crate::running::{
    Fails, NONE, Stage, over_tiny, put_failing, put_line, put_linked, put_list, stage_of, words_of,
};
use cli_ask::publisher_of;
use cli_words::{Command, Replay, read_words};
use fragmenter::Cutting;
use lc_links::{FaultyLink, LocalLink};
use publisher::Publisher;
use rows_common::{Draft, Unmade};
use std::alloc::Global;
use timetable::{Scope, Timetable, load};

pub const PLAN: &str = "plan http://lc.example/ a.csv";

/// The question of `A_TO_D` as the row of a script.
pub const ASK: &str = "ask,A,D,2024-05-01T08:00:00Z";

const ONE: &str = "plan http://lc.example/ a.csv
ask,A,D,2024-05-01T08:00:00Z";

/// Arguments and asks, each under the number of the exchange that fails. Exchanges are counted from 1: at 0 none fails. With room for
/// one page the second client finds that of 09:00 where it looks for that of 08:00.
static CASES: [(u64, &str); 19] = [
    (0, ONE),
    (1, ONE),
    (2, ONE),
    (3, ONE),
    (4, ONE),
    (
        3,
        "plan http://lc.example/ a.csv
ask,A,D,2024-05-01T08:00:00Z
ask,A,D,2024-05-01T08:00:00Z",
    ),
    (
        0,
        "plan --cache=2 HTTP://LC.example a.csv
ask,A,D,2024-05-01T08:00:00Z
ask,A,D,2024-05-01T08:00:00Z",
    ),
    (
        0,
        "plan http://lc.example/ a.csv --cache 1
ask,A,D,2024-05-01T08:00:00Z
ask,A,D,2024-05-01T08:00:00Z",
    ),
    (
        0,
        "plan http://lc.example/ a.csv
ask,A,D,2024-05-01T08:00:00Z
ask,B,D,2024-05-01T08:15:00Z
turn,2
turn,1
turn,2",
    ),
    (
        0,
        "plan http://lc.example/ a.csv
ask,A,A,2024-05-01T08:00:00Z
ask,X,D,2024-05-01T08:00:00Z
ask,A,D,2024-05-01T08:00:00Z,2024-05-01T06:00:00Z,1859",
    ),
    (
        0,
        "plan http://lc.example/other/ a.csv
ask,A,D,2024-05-01T08:00:00Z",
    ),
    (
        0,
        "plan http://localhost/ a.csv
ask,A,D,2024-05-01T08:00:00Z",
    ),
    (
        0,
        "plan http://lc.example/ a.csv
turn,1",
    ),
    (
        0,
        "plan http://lc.example/ a.csv
ask,A,D,2024-05-01T08:00:00Z
update,d60.pb",
    ),
    (
        0,
        "plan http://lc.example/ a.csv
ask,A,D,yesterday",
    ),
    (
        0,
        "plan http://lc.example/ b.csv
ask,A,D,2024-05-01T08:00:00Z",
    ),
    (
        0,
        "plan http://lc.example/ a.csv --days 3
ask,A,D,2024-05-01T08:00:00Z",
    ),
    (
        0,
        "plan http://lc.example/a a.csv
ask,A,D,2024-05-01T08:00:00Z",
    ),
    (
        0,
        "plan https://lc.example/ a.csv
ask,A,D,2024-05-01T08:00:00Z",
    ),
];

/// A reply that is no redirection.
const EMPTY: &str = "HTTP/1.1 200 OK\r\nContent-Length: 0\r\n\r\n";

/// What fails beside the link, by the question of one client.
static FAILURES: [(&str, Fails); 2] = [
    (
        "the first read fails",
        Fails {
            read: 1,
            exchange: 0,
            write: 0,
        },
    ),
    (
        "the first write fails",
        Fails {
            read: 0,
            exchange: 0,
            write: 1,
        },
    ),
];

pub fn put_plans(alloc: Global, draft: &mut Draft) {
    for (fails, case) in &CASES {
        put_plan(alloc, draft, *fails, *case);
    }
    put_failures(alloc, draft);
    put_line(draft, "a reply that is no redirection");
    put_planned(alloc, draft, ASK, &[EMPTY]);
    put_line(draft, "no reply");
    put_planned(alloc, draft, ASK, &[]);
}

fn put_failures(alloc: Global, draft: &mut Draft) {
    for (what, fails) in &FAILURES {
        put_line(draft, *what);
        put_line(draft, PLAN);
        put_failing(alloc, draft, &over_tiny(PLAN, &[("a.csv", ASK)]), *fails);
    }
}

/// Runs the asks over a link that gives these replies.
pub fn put_planned(alloc: Global, draft: &mut Draft, asks: &str, replies: &[&str]) {
    put_line(draft, PLAN);
    put_line(draft, asks);
    put_list(alloc, draft, &over_tiny(PLAN, &[("a.csv", asks)]), replies);
}

/// Runs arguments and asks over a link to a publisher of Tiny, of which this exchange fails.
pub fn put_plan(alloc: Global, draft: &mut Draft, fails: u64, case: &str) {
    if fails > 0 {
        draft.put("exchange ");
        draft.put_shown(&fails);
        draft.put(" fails\n");
    }
    put_line(draft, case);
    let (words, asks) = case.split_once('\n').unwrap_or((case, ""));
    put_words(alloc, draft, fails, words, asks);
}

fn put_words(alloc: Global, draft: &mut Draft, fails: u64, words: &str, asks: &str) {
    match stage_of(alloc, &over_tiny(words, &[("a.csv", asks)]), NONE) {
        Ok(mut stage) => put_asks(alloc, draft, &mut stage, fails),
        Err(Unmade) => draft.lose(),
    }
}

fn put_asks(alloc: Global, draft: &mut Draft, stage: &mut Stage, fails: u64) {
    match link_of(alloc, fails) {
        Ok(link) => {
            let _ = put_linked(alloc, draft, stage, link);
        }
        Err(Unmade) => draft.lose(),
    }
}

/// A link to a publisher of Tiny, of which this exchange fails.
fn link_of(alloc: Global, fails: u64) -> Result<FaultyLink<LocalLink<Cutting>>, Unmade> {
    let fails = Vec::from_array(alloc, [fails])?;
    let link = LocalLink::new(alloc, publisher(alloc)?)?;
    Ok(FaultyLink::new(link, fails))
}

/// A publisher of Tiny under `http://lc.example/`, as `replay` makes it.
fn publisher(alloc: Global) -> Result<Publisher<Cutting>, Unmade> {
    let words = words_of(alloc, "replay tiny 20240501 s.csv")?;
    publisher_by(alloc, words.as_slice())
}

fn publisher_by(alloc: Global, words: &[String]) -> Result<Publisher<Cutting>, Unmade> {
    match read_words(alloc, words)? {
        Some(Command::Replay(replay)) => publisher_for(alloc, replay),
        // To end a command of ten kinds here would make the proof long.
        other => {
            drop(other);
            Err(Unmade)
        }
    }
}

fn publisher_for(alloc: Global, replay: Replay) -> Result<Publisher<Cutting>, Unmade> {
    let Replay {
        window,
        publishing,
        ..
    } = replay;
    let scope = Scope {
        feed: window.feed,
        zone: window.zone,
        first: window.first,
        days: window.days,
        change: window.change,
    };
    let made = tiny_in(alloc, &scope)?;
    Ok(publisher_of(alloc, made, publishing)?)
}

/// The timetable of Tiny in this scope.
fn tiny_in(alloc: Global, scope: &Scope) -> Result<Timetable, Unmade>
    requires { IsWindow scope.now.first scope.now.days }
{
    let mut folder = folder_of(alloc, &over_tiny("", &[]), 0)?;
    Ok(load(alloc, &mut folder, scope)?)
}
