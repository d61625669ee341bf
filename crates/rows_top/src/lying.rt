//! Replies of a publisher of Tiny of which one lies, and pages without end.
use crate::links::reply_at;
use crate::planning::{ASK, put_planned};
use crate::running::{A_TO_D, over_tiny, put_line, put_list, run_list};
use lc_world::ListLink;
use rows_common::{Draft, Unmade};
use std::alloc::Global;

pub fn put_lies(alloc: Global, draft: &mut Draft) {
    match honest_link(alloc) {
        Ok(honest) => put_lies_of(alloc, draft, &honest),
        Err(Unmade) => draft.lose(),
    }
}

/// A link that recorded what a publisher of Tiny replies: at the time gate for 08:00, of the stops, and of the three pages.
fn honest_link(alloc: Global) -> Result<ListLink, Unmade> {
    let mut unread = Draft::new(alloc);
    let case = over_tiny("ask tiny A F 2024-05-01T08:00:00Z", &[]);
    run_list(alloc, &mut unread, &case, &[])
}

fn put_lies_of(alloc: Global, draft: &mut Draft, honest: &ListLink) {
    put_each(alloc, draft, honest, &FIRST);
    put_long_head(alloc, draft, honest);
    put_other(alloc, draft, honest, (1, 2), CUT);
    put_each(alloc, draft, honest, &THEN);
    put_pages_without_end(alloc, draft, honest);
    put_page_before_itself(alloc, draft, honest);
}

/// A lie: the reply that lies and the reply with the page, each by its number, and a text that replaces another.
struct Lie {
    liar: usize,
    page: usize,
    from: &'static str,
    to: &'static str,
}

static FIRST: [Lie; 1] = [Lie {
    liar: 0,
    page: 2,
    from: "Location: http://lc.example/",
    to: "Location: http://other.example/",
}];

const CUT: &str = "HTTP/1.1 200 OK\r\nContent-Length: 10\r\n\r\n{\"stops\":";

/// The first two connections of the page of 08:00.
const IN_ORDER: &str =
    r#"{"@id":"http://lc.example/connections/T1/20240501/-/1","@type":"Connection","arrivalDelay":0,"arrivalStop":"http://lc.example/stops/B","arrivalTime":"2024-05-01T08:10:00.000Z","departureDelay":0,"departureStop":"http://lc.example/stops/A","departureTime":"2024-05-01T08:00:00.000Z","gtfs:dropOffType":"gtfs:Regular","gtfs:pickupType":"gtfs:Regular","gtfs:trip":"http://lc.example/trips/T1/20240501/-"},{"@id":"http://lc.example/connections/T1/20240501/-/2","@type":"Connection","arrivalDelay":0,"arrivalStop":"http://lc.example/stops/C","arrivalTime":"2024-05-01T08:30:00.000Z","departureDelay":0,"departureStop":"http://lc.example/stops/B","departureTime":"2024-05-01T08:11:00.000Z","gtfs:dropOffType":"gtfs:Regular","gtfs:pickupType":"gtfs:Regular","gtfs:trip":"http://lc.example/trips/T1/20240501/-"}"#;

const SWAPPED: &str =
    r#"{"@id":"http://lc.example/connections/T1/20240501/-/2","@type":"Connection","arrivalDelay":0,"arrivalStop":"http://lc.example/stops/C","arrivalTime":"2024-05-01T08:30:00.000Z","departureDelay":0,"departureStop":"http://lc.example/stops/B","departureTime":"2024-05-01T08:11:00.000Z","gtfs:dropOffType":"gtfs:Regular","gtfs:pickupType":"gtfs:Regular","gtfs:trip":"http://lc.example/trips/T1/20240501/-"},{"@id":"http://lc.example/connections/T1/20240501/-/1","@type":"Connection","arrivalDelay":0,"arrivalStop":"http://lc.example/stops/B","arrivalTime":"2024-05-01T08:10:00.000Z","departureDelay":0,"departureStop":"http://lc.example/stops/A","departureTime":"2024-05-01T08:00:00.000Z","gtfs:dropOffType":"gtfs:Regular","gtfs:pickupType":"gtfs:Regular","gtfs:trip":"http://lc.example/trips/T1/20240501/-"}"#;

static THEN: [Lie; 4] = [
    Lie {
        liar: 2,
        page: 2,
        from: "Memento-Datetime: Thu, 01 Jan 1970 00:00:00 GMT\r\n",
        to: "",
    },
    Lie {
        liar: 2,
        page: 2,
        from: "T09:00:00.000Z\"",
        to: "T08:00:00.000Z\"",
    },
    Lie {
        liar: 2,
        page: 2,
        from: IN_ORDER,
        to: SWAPPED,
    },
    Lie {
        liar: 0,
        page: 3,
        from: "T08:00:00.000Z\r\n",
        to: "T09:00:00.000Z\r\n",
    },
];

fn put_each(alloc: Global, draft: &mut Draft, honest: &ListLink, lies: &[Lie]) {
    for lie in lies {
        put_lie(alloc, draft, honest, lie);
    }
}

fn put_lie(alloc: Global, draft: &mut Draft, honest: &ListLink, lie: &Lie) {
    match reply_at(honest, lie.liar).replace(alloc, lie.from, lie.to) {
        Ok(other) => put_other(alloc, draft, honest, (lie.liar, lie.page), other.as_str()),
        Err(_) => draft.lose(),
    }
}

/// A head of more than 16,384 bytes that does not end.
fn put_long_head(alloc: Global, draft: &mut Draft, honest: &ListLink) {
    let mut head = Draft::new(alloc);
    head.put("HTTP/1.1 302 Found\r\nX: ");
    head.put_times("a", 16_362);
    draft.also(&head);
    put_other(alloc, draft, honest, (0, 2), head.as_str());
}

/// Runs a question over the first two honest replies and one with a page, of which the liar's is another text.
fn put_other(
    alloc: Global,
    draft: &mut Draft,
    honest: &ListLink,
    numbers: (usize, usize),
    other: &str,
) {
    let (liar, page) = numbers;
    draft.put("a lie in reply ");
    draft.put_shown(&liar);
    draft.put("\n");
    put_line(draft, A_TO_D);
    let replies = [
        said_at(honest, 0, liar, other),
        said_at(honest, 1, liar, other),
        said_at(honest, page, liar, other),
    ];
    put_list(alloc, draft, &over_tiny(A_TO_D, &[]), &replies);
    put_planned(alloc, draft, ASK, &replies);
}

fn said_at<'a>(honest: &'a ListLink, number: usize, liar: usize, other: &'a str) -> &'a str {
    if number == liar {
        other
    } else {
        reply_at(honest, number)
    }
}

const WITHIN_3: &str = "ask tiny A D 2024-05-01T08:00:00Z --horizon 3";

/// A reply with a page of one connection from E to F, which departs at a second after 08:00. It is linked to the page of the next second.
macro_rules! page_of_a_second {
    ($second:literal, $next:literal) => {
        concat!(
            "HTTP/1.1 200 OK\r\nMemento-Datetime: Thu, 01 Jan 1970 00:00:00 GMT\r\n\r\n{\"@id\":\"http://lc.example/memento/connections?version=1970-01-01T00:00:00.000Z&departureTime=2024-05-01T08:00:0",
            $second,
            ".000Z\",\"hydra:next\":\"http://lc.example/memento/connections?version=1970-01-01T00:00:00.000Z&departureTime=2024-05-01T08:00:0",
            $next,
            ".000Z\",\"@graph\":[{\"@id\":\"http://lc.example/connections/X/20240501/-/",
            $next,
            "\",\"departureStop\":\"http://lc.example/stops/E\",\"departureTime\":\"2024-05-01T08:00:0",
            $second,
            ".000Z\",\"arrivalStop\":\"http://lc.example/stops/F\",\"arrivalTime\":\"2024-05-01T08:10:0",
            $second,
            ".000Z\"}]}"
        )
    };
}

/// Pages that go on for ever: the client asks for none that begins after the horizon.
fn put_pages_without_end(alloc: Global, draft: &mut Draft, honest: &ListLink) {
    put_line(draft, "pages without end");
    put_line(draft, WITHIN_3);
    let replies = [
        reply_at(honest, 0),
        reply_at(honest, 1),
        page_of_a_second!("0", "1"),
        page_of_a_second!("1", "2"),
        page_of_a_second!("2", "3"),
        page_of_a_second!("3", "4"),
        page_of_a_second!("4", "5"),
    ];
    put_list(alloc, draft, &over_tiny(WITHIN_3, &[]), &replies);
    put_planned(alloc, draft, "ask,A,D,2024-05-01T08:00:00Z,,3", &replies);
}

/// The page of 08:00, which links to itself as the one before it.
const BEFORE_ITSELF: &str =
    "HTTP/1.1 200 OK\r\nMemento-Datetime: Thu, 01 Jan 1970 00:00:00 GMT\r\n\r\n{\"@id\":\"http://lc.example/memento/connections?version=1970-01-01T00:00:00.000Z&departureTime=2024-05-01T08:00:00.000Z\",\"hydra:previous\":\"http://lc.example/memento/connections?version=1970-01-01T00:00:00.000Z&departureTime=2024-05-01T08:00:00.000Z\",\"@graph\":[{\"@id\":\"http://lc.example/connections/X/20240501/-/1\",\"departureStop\":\"http://lc.example/stops/E\",\"departureTime\":\"2024-05-01T08:00:00.000Z\",\"arrivalStop\":\"http://lc.example/stops/F\",\"arrivalTime\":\"2024-05-01T08:10:00.000Z\"}]}";

const BEFORE_831: &str = "arrive tiny A D 2024-05-01T08:30:59Z";

/// A client that goes back asks for no page that is not earlier.
fn put_page_before_itself(alloc: Global, draft: &mut Draft, honest: &ListLink) {
    put_line(draft, "a page before itself");
    put_line(draft, BEFORE_831);
    let replies = [reply_at(honest, 0), reply_at(honest, 1), BEFORE_ITSELF];
    put_list(alloc, draft, &over_tiny(BEFORE_831, &[]), &replies);
}
