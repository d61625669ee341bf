//! Clients that ask a publisher of Tiny through a relay over the link handed in, of which an exchange fails or none.
use crate::planning::put_plan;
use rows_common::Draft;
use std::alloc::Global;

/// Arguments and asks, each under the number of the exchange of the link handed in that fails; at 0 none fails. With room for one page each client
/// asks for the stops and for two pages, which the relay has for the second client. With room for two it asks for the stops again, and for no page.
static CASES: [(u64, &str); 15] = [
    (
        0,
        "relay http://lc.example/ a.csv --cache 1
ask,A,D,2024-05-01T08:00:00Z
ask,A,D,2024-05-01T08:00:00Z",
    ),
    (
        0,
        "relay http://lc.example/ a.csv --cache 1 --entries 1
ask,A,D,2024-05-01T08:00:00Z
ask,A,D,2024-05-01T08:00:00Z",
    ),
    (
        1,
        "relay http://lc.example/ a.csv --cache 1
ask,A,D,2024-05-01T08:00:00Z
ask,A,D,2024-05-01T08:00:00Z",
    ),
    (
        0,
        "relay --entries=1000 HTTP://LC.example a.csv
ask,A,D,2024-05-01T08:00:00Z
ask,A,D,2024-05-01T08:00:00Z",
    ),
    (
        6,
        "relay http://lc.example/ a.csv --cache 1
ask,A,D,2024-05-01T08:00:00Z
ask,A,D,2024-05-01T08:00:00Z
ask,A,D,2024-05-01T08:00:00Z",
    ),
    (
        0,
        "relay http://lc.example/ a.csv
ask,A,A,2024-05-01T08:00:00Z",
    ),
    (
        0,
        "relay http://lc.example/other/ a.csv
ask,A,D,2024-05-01T08:00:00Z
ask,A,D,2024-05-01T08:00:00Z",
    ),
    (
        0,
        "relay http://lc.example/ a.csv
turn,1",
    ),
    (
        0,
        "relay http://lc.example/ a.csv
ask,A,D,2024-05-01T08:00:00Z
update,d60.pb",
    ),
    (
        0,
        "relay http://lc.example/ b.csv
ask,A,D,2024-05-01T08:00:00Z",
    ),
    (
        0,
        "relay http://lc.example/ a.csv --entries 0
ask,A,D,2024-05-01T08:00:00Z",
    ),
    (
        0,
        "relay http://lc.example/ a.csv --entries 1001
ask,A,D,2024-05-01T08:00:00Z",
    ),
    (
        0,
        "relay http://lc.example/ a.csv --cache 0
ask,A,D,2024-05-01T08:00:00Z",
    ),
    (
        0,
        "relay lc.example a.csv
ask,A,D,2024-05-01T08:00:00Z",
    ),
    (
        0,
        "plan http://lc.example/ a.csv --entries 1
ask,A,D,2024-05-01T08:00:00Z",
    ),
];

pub fn put_relays(alloc: Global, draft: &mut Draft) {
    for (fails, case) in &CASES {
        put_plan(alloc, draft, *fails, *case);
    }
}
