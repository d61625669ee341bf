//! Questions for a journey of the fewest rides, over links to publishers and over a list of replies.
mod said;

use crate::making::{MIDNIGHT, NOT_FOUND, base, list_link, question};
use crate::publishing::{Served, link};
use connection_uri::Base;
use fragmenter::Cutting;
use lc_links::{FaultyLink, LocalLink};
use lc_model::Query;
use lc_world::Link;
use rounds_client::fewest;
use rows_common::{Draft, Unmade};
use said::{put_end, put_requests};
use std::alloc::Global;

/// T8 is at D with T3.
const IN_TIME: &[Served] = &[("T8", "A", 28_800, 28_800), ("T8", "D", 30_660, 30_660)];

/// T8 is at D a second after T3.
const A_SECOND_LATER: &[Served] = &[("T8", "A", 28_800, 28_800), ("T8", "D", 30_661, 30_661)];

/// A question from A, over Tiny with these calls too.
struct Case {
    name: &'static str,
    more: &'static [Served],
    to: &'static str,
    /// The second of the day at which it leaves.
    leave: u32,
    horizon: u32,
}

static CASES: [Case; 7] = [
    Case {
        name: "at once and in time",
        more: IN_TIME,
        to: "D",
        leave: 28_800,
        horizon: 86_400,
    },
    Case {
        name: "no other way",
        more: &[],
        to: "D",
        leave: 28_800,
        horizon: 86_400,
    },
    Case {
        name: "at once, but later",
        more: A_SECOND_LATER,
        to: "D",
        leave: 28_800,
        horizon: 86_400,
    },
    Case {
        name: "a second late",
        more: &[],
        to: "D",
        leave: 28_801,
        horizon: 86_400,
    },
    Case {
        name: "no such stop",
        more: &[],
        to: "X",
        leave: 28_800,
        horizon: 86_400,
    },
    Case {
        name: "to where it begins",
        more: &[],
        to: "A",
        leave: 28_800,
        horizon: 86_400,
    },
    Case {
        name: "no horizon",
        more: &[],
        to: "D",
        leave: 28_800,
        horizon: 0,
    },
];

/// The lines of the cases.
pub(crate) fn put_rounds(alloc: Global, draft: &mut Draft) {
    for case in &CASES {
        put_case(alloc, draft, case);
    }
    draft.put("a link that fails, ");
    put_asking_once(alloc, draft, &CASES[0], faulty(alloc));
    draft.put("a reply of another status, ");
    put_list(alloc, draft);
}

fn put_case(alloc: Global, draft: &mut Draft, case: &Case) {
    let mut link = match link(alloc, case.more, false) {
        Ok(link) => link,
        Err(Unmade) => return draft.lose(),
    };
    put_asking(alloc, draft, case, &mut link);
    put_requests(draft, link.recorded());
}

/// How the question ends over the link.
fn put_asking<L: Link>(alloc: Global, draft: &mut Draft, case: &Case, link: &mut L) {
    draft.put_all(&[case.name, ": "]);
    let leave = MIDNIGHT.saturating_add(u64::from(case.leave));
    match question(alloc, "A", case.to, leave, None, case.horizon) {
        Ok(query) => put_asking_of(alloc, draft, query, link),
        Err(Unmade) => draft.lose(),
    }
}

fn put_asking_of<L: Link>(alloc: Global, draft: &mut Draft, query: Query, link: &mut L) {
    match base(alloc) {
        Ok(base) => put_answer(alloc, draft, query, &base, link),
        Err(Unmade) => draft.lose(),
    }
}

fn put_answer<L: Link>(alloc: Global, draft: &mut Draft, query: Query, base: &Base, link: &mut L) {
    match fewest(alloc, query, base, link) {
        Ok(end) => put_end(alloc, draft, &end),
        Err(_) => draft.lose(),
    }
}

/// As before, and the link ends here, whatever it is.
fn put_asking_once<L: Link + Drop>(
    alloc: Global,
    draft: &mut Draft,
    case: &Case,
    made: Result<L, Unmade>,
) {
    match made {
        Ok(mut link) => put_asking(alloc, draft, case, &mut link),
        Err(Unmade) => draft.lose(),
    }
}

/// The third exchange fails, which is for the first page.
fn faulty(alloc: Global) -> Result<FaultyLink<LocalLink<Cutting>>, Unmade> {
    let fails = vec![in alloc; 3]?;
    let inner = link(alloc, IN_TIME, false)?;
    Ok(FaultyLink::new(inner, fails))
}

/// The first reply is that there is no such resource.
fn put_list(alloc: Global, draft: &mut Draft) {
    let mut link = match list_link(alloc, &[NOT_FOUND]) {
        Ok(link) => link,
        Err(Unmade) => return draft.lose(),
    };
    put_asking(alloc, draft, &CASES[1], &mut link);
    put_requests(draft, link.recorded());
}
