//! Feeds of other files than Tiny's, or of more.
use crate::links::reply_at;
use crate::playing::put_each;
use crate::running::{A_TO_D, Case, over_tiny, put_line, put_run, run_list};
use lc_world::ListLink;
use rows_common::{Draft, Unmade};
use std::alloc::Global;
use tiny_feed::{STOPS, TINY};

pub fn put_feeds(alloc: Global, draft: &mut Draft) {
    put_headers(alloc, draft, "no stops", "stop_id\n");
    put_headers(alloc, draft, "no trips", STOPS);
    put_other_files(alloc, draft);
    put_other_feeds(alloc, draft);
    put_too_many_changes(alloc, draft);
    put_each(alloc, draft, ZONES, "\n");
}

const HEADER: &str = "trip_id,arrival_time,departure_time,stop_id,stop_sequence\n";

/// The files of a feed but that of its stops, with no rows.
static HEADERS: [(&str, &str); 3] = [
    ("tiny/trips.txt", "trip_id,service_id\n"),
    ("tiny/stop_times.txt", HEADER),
    (
        "tiny/calendar_dates.txt",
        "service_id,date,exception_type\n",
    ),
];

/// A feed of header lines alone has no stops. With stops and no trips there is one empty page, named by the first moment of all.
fn put_headers(alloc: Global, draft: &mut Draft, name: &str, stops: &str) {
    put_line(draft, name);
    put_line(draft, A_TO_D);
    let case = Case {
        words: A_TO_D,
        first: &[("tiny/stops.txt", stops)],
        feed: &HEADERS,
    };
    match run_list(alloc, draft, &case, &[]) {
        Ok(link) => put_first_page(draft, &link),
        Err(Unmade) => draft.lose(),
    }
}

fn put_first_page(draft: &mut Draft, link: &ListLink) {
    let is_named = reply_at(link, 0).contains("&departureTime=1970-01-01T00:00:00.000Z\r\n");
    draft.put("the gate names the first moment of all: ");
    draft.put_shown(&is_named);
    draft.put("\n\n");
}

const AT_ONE_MOMENT: &str = "trip_id,arrival_time,departure_time,stop_id,stop_sequence
T4,09:00:00,09:00:00,A,1
T4,09:00:00,09:00:00,B,2
T4,09:05:00,09:05:00,C,3
";

const UNKNOWN_TRIP: &str = "trip_id,arrival_time,departure_time,stop_id,stop_sequence
T1,08:00:00,08:00:00,A,1
T1,08:10:00,08:11:00,B,2
T1,08:30:00,08:30:00,C,3
T9,08:20:00,08:20:00,B,1
T2,08:40:00,08:40:00,D,2
";

const STATION: &str = "stop_id,parent_station\nA,\nB,P\nC,\nD,\nE,\nF,\nP,\n";

const B_TO_B: &str = "from_stop_id,to_stop_id,transfer_type,min_transfer_time\nB,B,2,121\n";

const NEVER_AT_B: &str = "from_stop_id,to_stop_id,transfer_type,min_transfer_time\nB,B,3,121\n";

const B_TO_E: &str = "from_stop_id,to_stop_id,transfer_type,min_transfer_time\nB,E,2,300\n";

const FIRST_DAY: &str = "check tiny 20240501";

/// The name of a file, its path, its other text and the arguments. The files have no stops, no rows of trips, a ride over two calls at one
/// moment, and a row of no trip. Then come changes at a stop and between stops, and a station.
static OTHERS: [(&str, &str, &str, &str); 10] = [
    (
        "stops.txt",
        "tiny/stops.txt",
        "stop_id,stop_name\n",
        FIRST_DAY,
    ),
    ("stop_times.txt", "tiny/stop_times.txt", HEADER, A_TO_D),
    (
        "stop_times.txt",
        "tiny/stop_times.txt",
        AT_ONE_MOMENT,
        "ask tiny A C 2024-05-01T09:00:00Z",
    ),
    (
        "stop_times.txt",
        "tiny/stop_times.txt",
        UNKNOWN_TRIP,
        A_TO_D,
    ),
    ("transfers.txt", "tiny/transfers.txt", B_TO_B, A_TO_D),
    ("transfers.txt", "tiny/transfers.txt", NEVER_AT_B, A_TO_D),
    (
        "transfers.txt",
        "tiny/transfers.txt",
        B_TO_E,
        "ask tiny A F 2024-05-01T08:00:00Z",
    ),
    (
        "transfers.txt",
        "tiny/transfers.txt",
        B_TO_E,
        "ask tiny B F 2024-05-01T08:55:00Z",
    ),
    (
        "transfers.txt",
        "tiny/transfers.txt",
        B_TO_E,
        "arrive tiny B F 2024-05-01T09:10:00Z",
    ),
    (
        "stops.txt",
        "tiny/stops.txt",
        STATION,
        "ask tiny A P 2024-05-01T08:00:00Z",
    ),
];

/// Tiny with a file in place of its own, or beside its own.
fn put_other_files(alloc: Global, draft: &mut Draft) {
    for (name, path, text, words) in &OTHERS {
        draft.put("another ");
        put_line(draft, *name);
        draft.put(*text);
        put_line(draft, *words);
        put_run(alloc, draft, &over_tiny(*words, &[(*path, *text)]));
    }
}

/// A feed that is Tiny with other files.
struct Other {
    name: &'static str,
    words: &'static str,
    /// Whether the calendar_dates.txt of Tiny is there.
    is_dated: bool,
    files: &'static [(&'static str, &'static str)],
}

const CALENDAR: &str =
    "service_id,monday,tuesday,wednesday,thursday,friday,saturday,sunday,start_date,end_date
w,0,0,1,0,0,0,0,20240401,20240531
";

const EACH_DAY: &str =
    "service_id,monday,tuesday,wednesday,thursday,friday,saturday,sunday,start_date,end_date
w,1,1,1,1,1,1,1,20240401,20240731
";

const TAKEN_AWAY: &str = "service_id,date,exception_type\nw,20240508,2\n";

const EACH_SECOND: &str = "trip_id,start_time,end_time,headway_secs\nT5,00:00:00,24:00:00,1\n";

/// The rows of Tiny, and one of T5 that has no stop.
const LEFT_OUT: &str = "trip_id,arrival_time,departure_time,stop_id,stop_sequence
T1,08:00:00,08:00:00,A,1
T1,08:10:00,08:11:00,B,2
T1,08:30:00,08:30:00,C,3
T2,08:20:00,08:20:00,B,1
T2,08:40:00,08:40:00,D,2
T3,08:12:00,08:12:00,B,1
T3,08:31:00,08:31:00,D,2
T4,09:00:00,09:00:00,E,1
T4,09:10:00,09:10:00,F,2
T5,10:00:00,10:00:00,E,1
T5,10:10:00,10:10:00,F,2
T5,,,,3
";

/// A feed without a service, and services by weekdays with a date that is taken away and without. A trip with a row that has no stop is left
/// out. The trip T5 each second on 62 days, with the five connections of the others each day, makes 62 times 86,405.
static OTHER_FEEDS: [Other; 5] = [
    Other {
        name: "no calendar",
        words: A_TO_D,
        is_dated: false,
        files: &[],
    },
    Other {
        name: "a date of a weekday is taken away",
        words: "check tiny 20240501 --days 14",
        is_dated: false,
        files: &[
            ("tiny/calendar.txt", CALENDAR),
            ("tiny/calendar_dates.txt", TAKEN_AWAY),
        ],
    },
    Other {
        name: "a weekday",
        words: "check tiny 20240501 --days 14",
        is_dated: false,
        files: &[("tiny/calendar.txt", CALENDAR)],
    },
    Other {
        name: "a row of T5 without a stop",
        words: FIRST_DAY,
        is_dated: true,
        files: &[("tiny/stop_times.txt", LEFT_OUT)],
    },
    Other {
        name: "T5 each second",
        words: "check tiny 20240501 --days 62",
        is_dated: false,
        files: &[
            ("tiny/calendar.txt", EACH_DAY),
            ("tiny/frequencies.txt", EACH_SECOND),
        ],
    },
];

fn put_other_feeds(alloc: Global, draft: &mut Draft) {
    for other in &OTHER_FEEDS {
        put_other_feed(alloc, draft, other);
    }
}

fn put_other_feed(alloc: Global, draft: &mut Draft, other: &Other) {
    put_line(draft, other.name);
    put_line(draft, other.words);
    let case = Case {
        words: other.words,
        first: other.files,
        feed: if other.is_dated { &TINY } else { &TINY[..3] },
    };
    put_run(alloc, draft, &case);
}

/// A thousand stops of one station, which change to each other and to themselves, and the station to itself.
fn put_too_many_changes(alloc: Global, draft: &mut Draft) {
    put_line(draft, "a thousand stops of one station");
    put_line(draft, FIRST_DAY);
    let mut stops = Draft::new(alloc);
    put_crowd(&mut stops);
    draft.also(&stops);
    put_run(
        alloc,
        draft,
        &over_tiny(FIRST_DAY, &[("tiny/stops.txt", stops.as_str())]),
    );
}

fn put_crowd(stops: &mut Draft) {
    stops.put("stop_id,parent_station\nA,P\nB,P\nC,P\nD,P\nE,P\nF,P\nP,\n");
    for n in 0u32..994 {
        stops.put_shown(&n);
        stops.put(",P\n");
    }
}

/// The first journey, at 08:00 in zones that are two hours ahead of UTC, and five and three quarters: there 08:20 is on another page.
const ZONES: &str = "ask tiny A D 2024-05-01T06:00:00Z --zone posix:CET-1CEST,M3.5.0,M10.5.0/3
ask tiny A D 2024-05-01T02:15:00Z --zone file:kathmandu";
