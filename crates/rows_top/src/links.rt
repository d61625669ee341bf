//! Links that give other replies than the publisher's: those of another one, and no page.
use crate::running::{A_TO_D, Case, over_tiny, put_line, put_list, run_list, text_of};
use lc_world::{ListLink, RecordedReply};
use rows_common::{Draft, Unmade};
use std::alloc::Global;
use tiny_feed::{CALENDAR_DATES, STOPS};

static NOT_FOUND: [&str; 2] = [
    "HTTP/1.1 404 Not Found\r\nContent-Length: 0\r\n\r\n",
    "HTTP/1.1 404 Not Found\r\nContent-Length: 0\r\n\r\n",
];

const BY_831: &str = "arrive tiny A D 2024-05-01T08:31:00Z";

const SCRIPT: &str =
    "ask,A,D,2024-05-01T08:00:00Z\nturn,1\nupdate,d60.pb\nask,A,D,2024-05-01T08:00:00Z\n";

pub fn put_links(alloc: Global, draft: &mut Draft) {
    put_line(draft, "1 replies not found");
    put_not_found(alloc, draft, A_TO_D, "", &NOT_FOUND[..1]);
    put_line(draft, "2 replies not found");
    put_not_found(
        alloc,
        draft,
        "replay tiny 20240501 s.csv",
        SCRIPT,
        &NOT_FOUND,
    );
    put_line(draft, "1 reply of a drill not found");
    put_not_found(alloc, draft, "drill 1", "", &NOT_FOUND[..1]);
    put_line(
        draft,
        "1 reply to a question for the latest departure not found",
    );
    put_not_found(alloc, draft, BY_831, "", &NOT_FOUND[..1]);
    put_replies_of_another_feed(alloc, draft);
}

/// Runs the arguments over a link whose first replies are 404. Each client prints what such a reply says, not what the publisher has.
pub fn put_not_found(
    alloc: Global,
    draft: &mut Draft,
    words: &str,
    script: &str,
    replies: &[&str],
) {
    put_line(draft, words);
    put_line(draft, script);
    put_list(
        alloc,
        draft,
        &over_tiny(words, &[("s.csv", script)]),
        replies,
    );
}

/// The text of the reply of this number, from 0, that a link recorded, or none where it recorded no such reply.
pub fn reply_at(link: &ListLink, number: usize) -> &str {
    match link.recorded().get(number) {
        Some(entry) => reply_of(&entry.reply),
        None => "",
    }
}

fn reply_of(recorded: &RecordedReply) -> &str {
    match recorded {
        RecordedReply::Reply(reply) => text_of(reply.as_slice()),
        _ => "",
    }
}

/// The feed without the trip T3.
static WITHOUT_T3: [(&str, &str); 4] = [
    ("tiny/stops.txt", STOPS),
    (
        "tiny/trips.txt",
        "route_id,service_id,trip_id\nr,w,T1\nr,w,T2\nr,w,T4\nr,w,T5\n",
    ),
    (
        "tiny/stop_times.txt",
        "trip_id,arrival_time,departure_time,stop_id,stop_sequence
T1,08:00:00,08:00:00,A,1
T1,08:10:00,08:11:00,B,2
T1,08:30:00,08:30:00,C,3
T2,08:20:00,08:20:00,B,1
T2,08:40:00,08:40:00,D,2
T4,09:00:00,09:00:00,E,1
T4,09:10:00,09:10:00,F,2
T5,10:00:00,10:00:00,E,1
T5,10:10:00,10:10:00,F,2
",
    ),
    ("tiny/calendar_dates.txt", CALENDAR_DATES),
];

/// The replies that a publisher of the feed without T3 gave, over a feed that has it: the journey is that of the replies.
fn put_replies_of_another_feed(alloc: Global, draft: &mut Draft) {
    put_line(draft, "the feed without T3");
    put_line(draft, A_TO_D);
    let case = Case {
        words: A_TO_D,
        first: &[],
        feed: &WITHOUT_T3,
    };
    match run_list(alloc, draft, &case, &[]) {
        Ok(link) => put_again(alloc, draft, &link),
        Err(Unmade) => draft.lose(),
    }
}

fn put_again(alloc: Global, draft: &mut Draft, link: &ListLink) {
    put_line(draft, "its replies over Tiny");
    put_line(draft, A_TO_D);
    let replies = [
        reply_at(link, 0),
        reply_at(link, 1),
        reply_at(link, 2),
        reply_at(link, 3),
    ];
    put_list(alloc, draft, &over_tiny(A_TO_D, &[]), &replies);
}
