//! Questions for the fewest rides: over Tiny with a trip T8 that goes from A to D at once, over a link that fails, and without a page.
use crate::links::put_not_found;
use crate::running::{Fails, over_tiny, put_failing, put_line, put_run};
use rows_common::Draft;
use std::alloc::Global;

const WORDS: &str = "fewest tiny A D 2024-05-01T08:00:00Z";

const TRIPS: &str = "route_id,service_id,trip_id\nr,w,T1\nr,w,T2\nr,w,T3\nr,w,T4\nr,w,T5\nr,w,T8\n";

/// T8 is at D with T3.
const IN_TIME: &str = "trip_id,arrival_time,departure_time,stop_id,stop_sequence
T1,08:00:00,08:00:00,A,1
T1,08:10:00,08:11:00,B,2
T1,08:30:00,08:30:00,C,3
T2,08:20:00,08:20:00,B,1
T2,08:40:00,08:40:00,D,2
T3,08:12:00,08:12:00,B,1
T3,08:31:00,08:31:00,D,2
T4,09:00:00,09:00:00,E,1
T4,09:10:00,09:10:00,F,2
T5,10:00:00,10:00:00,E,1
T5,10:10:00,10:10:00,F,2
T8,08:00:00,08:00:00,A,1
T8,08:31:00,08:31:00,D,2
";

/// T8 is at D a second after T3.
const A_SECOND_LATER: &str = "trip_id,arrival_time,departure_time,stop_id,stop_sequence
T1,08:00:00,08:00:00,A,1
T1,08:10:00,08:11:00,B,2
T1,08:30:00,08:30:00,C,3
T2,08:20:00,08:20:00,B,1
T2,08:40:00,08:40:00,D,2
T3,08:12:00,08:12:00,B,1
T3,08:31:00,08:31:00,D,2
T4,09:00:00,09:00:00,E,1
T4,09:10:00,09:10:00,F,2
T5,10:00:00,10:00:00,E,1
T5,10:10:00,10:10:00,F,2
T8,08:00:00,08:00:00,A,1
T8,08:31:01,08:31:01,D,2
";

/// A name, and the calls of the trips.
static CALLS: [(&str, &str); 2] = [
    ("T8 from A to D at once", IN_TIME),
    ("T8 from A to D a second later", A_SECOND_LATER),
];

pub fn put_rides(alloc: Global, draft: &mut Draft) {
    for (name, calls) in &CALLS {
        put_calls(alloc, draft, *name, *calls);
    }
    put_faulty(alloc, draft);
    put_line(draft, "1 reply of fewest not found");
    put_not_found(
        alloc,
        draft,
        WORDS,
        "",
        &["HTTP/1.1 404 Not Found\r\nContent-Length: 0\r\n\r\n"],
    );
}

fn put_calls(alloc: Global, draft: &mut Draft, name: &str, calls: &str) {
    put_line(draft, name);
    put_line(draft, WORDS);
    let files = [("tiny/trips.txt", TRIPS), ("tiny/stop_times.txt", calls)];
    put_run(alloc, draft, &over_tiny(WORDS, &files));
}

fn put_faulty(alloc: Global, draft: &mut Draft) {
    put_line(draft, "the third exchange of fewest fails");
    put_line(draft, WORDS);
    let fails = Fails {
        read: 0,
        exchange: 3,
        write: 0,
    };
    put_failing(alloc, draft, &over_tiny(WORDS, &[]), fails);
}
