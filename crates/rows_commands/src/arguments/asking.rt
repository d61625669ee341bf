//! What the arguments of the commands say that ask one question without a cache.
use super::commands::{put_question, put_window, put_word};
use super::options::put_known;
use super::words::put_publishing;
use cli_words::{Arrive, Fewest, Published};
use lc_model::Moment;
use rows_common::Draft;

/// Arguments of `fewest`.
pub(super) const FEWESTS: [&str; 34] = [
    "fewest tiny A D 2024-05-01T08:00:00Z",
    "fewest -- tiny A D 2024-05-01T08:00:00Z",
    "fewest --days=3 tiny A D 2024-05-01T08:00:00Z --zone utc",
    "fewest tiny A --days 1 D 2024-05-01T08:00:00Z --change=0",
    "fewest tiny A D 2024-05-01T08:00:00Z --days 62 --change 86400 --zone=posix:UTC0",
    "fewest tiny A D 2024-05-01T08:00:00Z --horizon 0",
    "fewest tiny A D 2024-05-01T08:00:00Z --horizon=4294967295",
    "fewest tiny A D 2024-05-01T08:00:00Z --base http://x/lc/ --base-moment 2024-05-01T06:00:00Z --cuts count:4 --update d60.pb --known 2024-05-01T07:00:00Z",
    "fewest tiny A D 1970-01-11T00:00:00Z",
    "fewest tiny A D 9999-12-14T23:59:59Z",
    "fewest -- -tiny A D 2024-05-01T08:00:00Z",
    "fewest tiny A D 2024-05-01T08:00:00Z --cache 5",
    "fewest tiny A D 2024-05-01T08:00:00Z --cache=100",
    "fewest tiny A D",
    "fewest tiny A D 2024-05-01T08:00:00Z x",
    "fewest tiny A D -- 2024-05-01T08:00:00Z --days",
    "fewest tiny A D yesterday",
    "fewest tiny A D 1970-01-10T23:59:59Z",
    "fewest tiny A D 9999-12-15T00:00:00Z",
    "fewest tiny A D 9999-12-14T23:59:59Z --days 4",
    "fewest tiny  D 2024-05-01T08:00:00Z",
    "fewest tiny A D 2024-05-01T08:00:00Z --days 0",
    "fewest tiny A D 2024-05-01T08:00:00Z --days 63",
    "fewest tiny A D 2024-05-01T08:00:00Z --change 86401",
    "fewest tiny A D 2024-05-01T08:00:00Z --horizon 4294967296",
    "fewest tiny A D 2024-05-01T08:00:00Z --known yesterday",
    "fewest tiny A D 2024-05-01T08:00:00Z --cuts span:0",
    "fewest tiny A D 2024-05-01T08:00:00Z --update=",
    "fewest tiny A D 2024-05-01T08:00:00Z --zone -x",
    "fewest tiny A D 2024-05-01T08:00:00Z --days 3 --days=3",
    "fewest tiny A D 2024-05-01T08:00:00Z -",
    "fewest tiny A D 2024-05-01T08:00:00Z --port 80",
    "fewest --help",
    "few tiny A D 2024-05-01T08:00:00Z",
];

/// Arguments of `arrive`. The first moment by which a question may ask to arrive is a week after the first at which one may leave.
pub(super) const ARRIVES: [&str; 34] = [
    "arrive tiny A D 2024-05-01T08:00:00Z",
    "arrive tiny A -- D 2024-05-01T08:00:00Z",
    "arrive --days=3 tiny A D 2024-05-01T08:00:00Z --zone utc",
    "arrive tiny --change 0 A D 2024-05-01T08:00:00Z --days=1",
    "arrive tiny A D 2024-05-01T23:59:59Z --days 62 --change=86400 --zone posix:UTC0",
    "arrive tiny A D 2024-05-02T00:00:00Z --horizon 0",
    "arrive tiny A D 2024-05-01T08:00:00Z --horizon=4294967295 --known=1970-01-01T00:00:00Z --update=a=b",
    "arrive --base http://x tiny A D 2024-05-01T08:00:00Z --base-moment=2024-05-01T06:00:00Z --cuts whole",
    "arrive tiny A D 1970-01-18T00:00:00Z",
    "arrive tiny A D 9999-12-14T23:59:59Z",
    "arrive -- tiny A -D 2024-05-01T08:00:00Z",
    "arrive tiny A D 2024-05-01T08:00:00Z --cache 5",
    "arrive tiny A D 2024-05-01T08:00:00Z --cache=100",
    "arrive tiny A D",
    "arrive tiny A D 2024-05-01T08:00:00Z x",
    "arrive tiny A D -- 2024-05-01T08:00:00Z --days",
    "arrive tiny A D tomorrow",
    "arrive tiny A D 1970-01-11T00:00:00Z",
    "arrive tiny A D 1970-01-17T23:59:59Z",
    "arrive tiny A D 9999-12-15T00:00:00Z",
    "arrive tiny A D 9999-12-14T23:59:59Z --days 4",
    "arrive tiny A  2024-05-01T08:00:00Z",
    "arrive tiny A D 2024-05-01T08:00:00Z --days 0",
    "arrive tiny A D 2024-05-01T08:00:00Z --days 63",
    "arrive tiny A D 2024-05-01T08:00:00Z --change=-1",
    "arrive tiny A D 2024-05-01T08:00:00Z --horizon 4294967296",
    "arrive tiny A D 2024-05-01T08:00:00Z --known",
    "arrive tiny A D 2024-05-01T08:00:00Z --cuts count:0",
    "arrive tiny A D 2024-05-01T08:00:00Z --update=-x",
    "arrive tiny A D 2024-05-01T08:00:00Z --known 2024-05-01T08:00:00Z --known=2024-05-01T08:00:00Z",
    "arrive tiny A D 2024-05-01T08:00:00Z -",
    "arrive tiny A D 2024-05-01T08:00:00Z --connections 3",
    "arrive --help",
    "arrives tiny A D 2024-05-01T08:00:00Z",
];

/// A question for the fewest rides: its feed, its question and window, how it is published, the message, and the known moment.
pub(super) fn put_fewest(draft: &mut Draft, fewest: &Fewest) {
    draft.put("fewest ");
    draft.put(fewest.published.window.feed.as_str());
    put_question(draft, &fewest.query);
    put_published(draft, &fewest.published, fewest.query.known);
}

/// A question for the latest departure: what one for the fewest rides has.
pub(super) fn put_arrive(draft: &mut Draft, arrive: &Arrive) {
    draft.put("arrive ");
    draft.put(arrive.published.window.feed.as_str());
    put_arrival(draft, arrive);
    put_published(draft, &arrive.published, arrive.query.known);
}

fn put_arrival(draft: &mut Draft, arrive: &Arrive) {
    put_word(draft, &arrive.query.from.as_str());
    put_word(draft, &arrive.query.to.as_str());
    put_word(draft, &arrive.query.arrive.seconds());
    put_word(draft, &arrive.query.horizon);
}

/// The window, how it is published, the message, and the known moment.
fn put_published(draft: &mut Draft, published: &Published, known: Option<Moment>) {
    put_window(draft, &published.window);
    draft.put(" ");
    put_publishing(draft, &published.publishing);
    draft.put(" ");
    put_known(draft, &published.update, known);
}
