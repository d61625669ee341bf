//! Questions for the latest departure over a list of replies.
mod linked;
mod said;

use crate::making::{MIDNIGHT, base, id};
use back_client::{ArriveEnd, arrive};
use back_scan::{ArriveQuery, FIRST_ARRIVE, LAST_ARRIVE};
use lc_model::Moment;
use lc_world::ListLink;
use linked::link_of;
use rows_common::{Draft, Unmade};
use said::{put_end, put_requests};
use std::alloc::Global;

/// A question, and the replies that it is given.
struct Case {
    name: &'static str,
    from: &'static str,
    to: &'static str,
    /// The second of the day by which one is to arrive.
    arrive: u32,
    horizon: u32,
    replies: &'static str,
}

static CASES: [Case; 18] = [
    Case {
        name: "in time",
        from: "A",
        to: "D",
        arrive: 30_660,
        horizon: 86_400,
        replies: "gate=08:00 stops 08:00=,09:00",
    },
    Case {
        name: "a second early",
        from: "A",
        to: "D",
        arrive: 30_659,
        horizon: 86_400,
        replies: "gate=08:00 stops 08:00=,09:00",
    },
    Case {
        name: "by the earlier trip",
        from: "E",
        to: "F",
        arrive: 36_599,
        horizon: 86_400,
        replies: "gate=10:00 stops 10:00=09:00, 09:00=08:00,10:00",
    },
    Case {
        name: "by the later trip",
        from: "E",
        to: "F",
        arrive: 36_600,
        horizon: 86_400,
        replies: "gate=10:00 stops 10:00=09:00,",
    },
    // One leaves at 08:55, thus the page of 08:00 is needed too.
    Case {
        name: "a walk before",
        from: "B",
        to: "F",
        arrive: 33_000,
        horizon: 86_400,
        replies: "gate=09:00 walks 09:00=08:00,10:00 08:00=,09:00",
    },
    // No page before the first second of the horizon is asked for.
    Case {
        name: "a short horizon",
        from: "A",
        to: "D",
        arrive: 36_000,
        horizon: 3_600,
        replies: "gate=10:00 stops 10:00=09:00, 09:00=08:00,10:00",
    },
    Case {
        name: "back to itself",
        from: "A",
        to: "D",
        arrive: 30_659,
        horizon: 86_400,
        replies: "gate=08:00 stops 08:00=08:00,09:00",
    },
    Case {
        name: "back to a later page",
        from: "A",
        to: "F",
        arrive: 32_400,
        horizon: 86_400,
        replies: "gate=09:00 stops 09:00=10:00,10:00",
    },
    Case {
        name: "another page",
        from: "A",
        to: "F",
        arrive: 32_400,
        horizon: 86_400,
        replies: "gate=09:00 stops 09:00=08:00,10:00 09:00=08:00,10:00",
    },
    // The page of 08:30 has the departure of 09:00 too.
    Case {
        name: "what was taken",
        from: "A",
        to: "F",
        arrive: 32_400,
        horizon: 86_400,
        replies: "gate=09:00 stops 09:00=08:30,10:00 08:30=08:00,10:00",
    },
    Case {
        name: "a gate too late",
        from: "A",
        to: "D",
        arrive: 30_660,
        horizon: 86_400,
        replies: "gate=09:00 stops 09:00=08:00,10:00",
    },
    Case {
        name: "a gate too early",
        from: "E",
        to: "F",
        arrive: 33_000,
        horizon: 86_400,
        replies: "gate=08:00 stops 08:00=,09:00",
    },
    Case {
        name: "nothing there",
        from: "A",
        to: "D",
        arrive: 30_660,
        horizon: 86_400,
        replies: "nothing",
    },
    Case {
        name: "no reply for a page",
        from: "A",
        to: "D",
        arrive: 30_660,
        horizon: 86_400,
        replies: "gate=08:00 stops",
    },
    Case {
        name: "no horizon",
        from: "A",
        to: "A",
        arrive: 30_660,
        horizon: 0,
        replies: "",
    },
    Case {
        name: "one stop",
        from: "A",
        to: "A",
        arrive: 30_660,
        horizon: 604_800,
        replies: "",
    },
    Case {
        name: "an unknown first stop",
        from: "Q",
        to: "R",
        arrive: 30_660,
        horizon: 86_400,
        replies: "gate=08:00 stops",
    },
    Case {
        name: "an unknown last stop",
        from: "A",
        to: "R",
        arrive: 30_660,
        horizon: 86_400,
        replies: "gate=08:00 stops",
    },
];

/// A line for each question: how it ended, and what was asked for it.
pub(crate) fn put_arrivals(alloc: Global, draft: &mut Draft) {
    for case in &CASES {
        put_case(alloc, draft, case);
    }
}

fn put_case(alloc: Global, draft: &mut Draft, case: &Case) {
    let Ok(mut link) = link_of(alloc, draft, case.replies) else {
        return draft.lose();
    };
    draft.put(case.name);
    put_asked(alloc, draft, case, &mut link);
    put_requests(draft, link.recorded());
    draft.put("\n");
}

fn put_asked(alloc: Global, draft: &mut Draft, case: &Case, link: &mut ListLink) {
    match end_of(alloc, case, link) {
        Ok(end) => put_end(draft, &end),
        Err(Unmade) => draft.lose(),
    }
}

fn end_of(alloc: Global, case: &Case, link: &mut ListLink) -> Result<ArriveEnd, Unmade> {
    let query = question(alloc, case)?;
    let base = base(alloc)?;
    Ok(arrive(alloc, query, &base, link)?)
}

fn question(alloc: Global, case: &Case) -> Result<ArriveQuery, Unmade> {
    let seconds = MIDNIGHT.saturating_add(u64::from(case.arrive));
    if seconds < FIRST_ARRIVE || seconds > LAST_ARRIVE {
        return Err(Unmade);
    }
    let Some(arrive) = Moment::new(seconds) else {
        return Err(Unmade);
    };
    let from = id(alloc, case.from)?;
    let to = id(alloc, case.to)?;
    Ok(ArriveQuery {
        from,
        to,
        arrive,
        known: None,
        horizon: case.horizon,
    })
}
