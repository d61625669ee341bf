//! Clients that take turns over a list of replies.
use super::linked::link_of;
use super::{ADDRESS, ask_each, put_outcome};
use crate::making::begun;
use crate::said::put_named;
use convoy::{Convoy, Turn};
use lc_model::NoMemory;
use lc_world::{Link, ListLink};
use rows_common::{Draft, Unmade};
use std::alloc::Global;

/// Clients of one question, and their turns.
struct Case {
    name: &'static str,
    horizon: u32,
    /// How many pages are cached.
    cache: usize,
    clients: usize,
    replies: &'static str,
    /// Whose turn it is, a digit each.
    turns: &'static str,
}

static CASES: [Case; 5] = [
    // The second client takes the page that the first one was sent.
    Case {
        name: "shared",
        horizon: 3_600,
        cache: 1,
        clients: 2,
        replies: "gate stops gate 0/ stops",
        turns: "11212212",
    },
    // Of two pages a cache of one holds the last one alone.
    Case {
        name: "a small cache",
        horizon: 3_600,
        cache: 1,
        clients: 2,
        replies: "gate stops 0/1 1/ gate stops 0/1 1/",
        turns: "11112222",
    },
    // The third client and the fourth one fail, and the second one goes on by what is cached.
    Case {
        name: "links that fail",
        horizon: 3_600,
        cache: 2,
        clients: 4,
        replies: "gate stops gate stops 0/1 1/",
        turns: "112211323422",
    },
    // A page whose next link leads to itself is not cached for the second client.
    Case {
        name: "not kept",
        horizon: 3_600,
        cache: 1,
        clients: 2,
        replies: "gate stops 0/0 gate stops 0/",
        turns: "111222",
    },
    // Pages of a second each: the client asks for none that begins after the horizon.
    Case {
        name: "behind the horizon",
        horizon: 3,
        cache: 1,
        clients: 1,
        replies: "gate stops 0/1 1/2 2/3 3/4 4/",
        turns: "1111111",
    },
];

/// A line for the turns of each convoy, and the ends of its clients.
pub(super) fn put_turns(alloc: Global, draft: &mut Draft) {
    for case in &CASES {
        put_case(alloc, draft, case);
    }
}

fn put_case(alloc: Global, draft: &mut Draft, case: &Case) {
    let Ok(mut link) = link_of(alloc, draft, case.replies) else {
        return draft.lose();
    };
    match begun(alloc, ADDRESS, case.cache) {
        Ok(mut convoy) => put_convoy(alloc, draft, case, &mut convoy, &mut link),
        Err(Unmade) => draft.lose(),
    }
}

fn put_convoy(
    alloc: Global,
    draft: &mut Draft,
    case: &Case,
    convoy: &mut Convoy,
    link: &mut ListLink,
) {
    ask_each(alloc, draft, convoy, case.clients, case.horizon);
    draft.put_all(&[case.name, ":"]);
    for digit in case.turns.as_bytes() {
        let k = usize::from(digit.wrapping_sub(b'0'));
        put_turn(alloc, draft, convoy, k, link);
    }
    put_ends(draft, convoy);
    put_named(draft, " faults ", &link.faults());
    draft.put("\n");
}

/// The turn of client k: what it does, and how many exchanges more the link records then.
fn put_turn(alloc: Global, draft: &mut Draft, convoy: &mut Convoy, k: usize, link: &mut ListLink) {
    if k < 1 || convoy.clients() < k {
        return draft.lose();
    }
    let before = link.recorded().len();
    put_named(draft, " ", &k);
    match convoy.turn(alloc, k, link) {
        Ok(turn) => draft.put(said(turn)),
        Err(NoMemory) => draft.lose(),
    }
    draft.put_shown(&link.recorded().len().saturating_sub(before));
    draft.put(",");
}

fn said(turn: Turn) -> &'static str {
    match turn {
        Turn::Finished => " finished ",
        Turn::Cached => " cached ",
        Turn::Exchanged => " exchanged ",
    }
}

/// How each client ended, and how many exchanges it made.
fn put_ends(draft: &mut Draft, convoy: &Convoy) {
    for index in 0..convoy.clients() {
        draft.put(" ");
        put_outcome(draft, convoy.outcome(index + 1));
        put_named(draft, " in ", &convoy.exchanges(index + 1));
        draft.put(",");
    }
}
