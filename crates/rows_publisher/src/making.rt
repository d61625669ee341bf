//! Publishers of the small feed Tiny, or of nothing.
use connection_uri::Base;
use fragmenter::{ByCount, BySpan, Cutting};
use lc_model::{
    Bytes, Event, Moment, Relation, Run, Runs, ServiceDate, StopNews, StopNewsList, Stops,
    StopsDoc, TripKind, TripNews,
};
use lc_time::Zone;
use live_calls::added_run;
use page_json::read_stops;
use publisher::{Options, Publisher};
use rows_common::Unmade;
use std::alloc::Global;

/// 2024-05-01T00:00:00Z, from which the calls count their seconds.
const MIDNIGHT: u64 = 1_714_521_600;

/// 06:00:00 of that day.
const AT_SIX: u64 = MIDNIGHT + 21_600;

/// The trips of the small feed.
static TRIPS: [&str; 5] = ["T1", "T2", "T3", "T4", "T5"];

/// A call of a trip: its stop, and the seconds of arrival and departure there.
type Served = (&'static str, &'static str, u32, u32);

/// The calls of the trips, in the order of each.
static SERVED: [Served; 11] = [
    ("T1", "A", 28_800, 28_800),
    ("T1", "B", 29_400, 29_460),
    ("T1", "C", 30_600, 30_600),
    ("T2", "B", 30_000, 30_000),
    ("T2", "D", 31_200, 31_200),
    ("T3", "B", 29_520, 29_520),
    ("T3", "D", 30_660, 30_660),
    ("T4", "E", 32_400, 32_400),
    ("T4", "F", 33_000, 33_000),
    ("T5", "E", 36_000, 36_000),
    ("T5", "F", 36_600, 36_600),
];

/// The stops document of the small feed.
const STOPS: &str =
    r#"{"changes":[],"stops":[{"id":"A"},{"id":"B"},{"id":"C"},{"id":"D"},{"id":"E"},{"id":"F"}]}"#;

/// A stops document without stops.
const NO_STOPS: &str = r#"{"changes":[],"stops":[]}"#;

/// How a publisher cuts its pages.
#[derive(Clone, Copy)]
enum Pages {
    HalfHours,
    OneByOne,
    Whole,
}

/// What a publisher under `http://lc.example/` is made of.
pub(crate) struct Plan {
    /// How many of the trips it has, from the first one on.
    trips: usize,
    stops: &'static str,
    /// The second of the base version.
    start: u64,
    pages: Pages,
    accept_updates: bool,
}

/// With pages by half hours, and with messages taken.
pub(crate) static BY_HALF_HOURS: Plan = Plan {
    trips: 5,
    stops: STOPS,
    start: AT_SIX,
    pages: Pages::HalfHours,
    accept_updates: true,
};

/// With a page for each connection.
pub(crate) static ONE_BY_ONE: Plan = Plan {
    trips: 5,
    stops: STOPS,
    start: AT_SIX,
    pages: Pages::OneByOne,
    accept_updates: false,
};

/// With one page for all connections.
pub(crate) static WHOLE: Plan = Plan {
    trips: 5,
    stops: STOPS,
    start: AT_SIX,
    pages: Pages::Whole,
    accept_updates: false,
};

/// With the trip T1 alone.
pub(crate) static ALONE: Plan = Plan {
    trips: 1,
    stops: STOPS,
    start: AT_SIX,
    pages: Pages::Whole,
    accept_updates: false,
};

/// Without trips and stops.
pub(crate) static OF_NOTHING: Plan = Plan {
    trips: 0,
    stops: NO_STOPS,
    start: AT_SIX,
    pages: Pages::Whole,
    accept_updates: false,
};

/// Without trips and stops, from the first moment on.
pub(crate) static AT_FIRST: Plan = Plan {
    trips: 0,
    stops: NO_STOPS,
    start: 0,
    pages: Pages::Whole,
    accept_updates: false,
};

/// Without trips and stops, and with messages taken.
pub(crate) static TAKING: Plan = Plan {
    trips: 0,
    stops: NO_STOPS,
    start: AT_SIX,
    pages: Pages::Whole,
    accept_updates: true,
};

pub(crate) fn publisher(alloc: Global, plan: &Plan) -> Result<Publisher<Cutting>, Unmade> {
    let options = options(alloc, plan.accept_updates)?;
    let doc = read_stops(alloc, plan.stops.as_bytes())?;
    publisher_of(alloc, plan, doc, options)
}

fn publisher_of(
    alloc: Global,
    plan: &Plan,
    doc: StopsDoc,
    options: Options,
) -> Result<Publisher<Cutting>, Unmade> {
    let runs = runs(alloc, plan.trips, &doc.stops)?;
    let Some(start) = Moment::new(plan.start) else {
        return Err(Unmade);
    };
    Ok(Publisher::new(
        alloc,
        runs,
        doc,
        Zone::Utc,
        start,
        cutting(plan.pages),
        options,
    )?)
}

fn cutting(pages: Pages) -> Cutting {
    match pages {
        Pages::HalfHours => Cutting::Span(BySpan { seconds: 1800 }),
        Pages::OneByOne => Cutting::Count(ByCount { count: 1 }),
        Pages::Whole => Cutting::Whole,
    }
}

fn options(alloc: Global, accept_updates: bool) -> Result<Options, Unmade> {
    match Base::read(alloc, b"http://lc.example/") {
        Ok(Some(base)) => Ok(Options {
            base,
            accept_updates,
        }),
        _ => Err(Unmade),
    }
}

fn runs(alloc: Global, trips: usize, stops: &Stops) -> Result<Runs, Unmade> {
    let mut list = Vec::new(alloc);
    push_runs(alloc, &mut list, trips, stops)?;
    match Runs::try_from_list(list) {
        Ok(runs) => Ok(runs),
        Err(_) => Err(Unmade),
    }
}

fn push_runs(
    alloc: Global,
    list: &mut Vec<Run>,
    trips: usize,
    stops: &Stops,
) -> Result<(), Unmade> {
    for trip in TRIPS.iter().take(trips) {
        push_run(alloc, list, trip, stops)?;
    }
    Ok(())
}

fn push_run(alloc: Global, list: &mut Vec<Run>, trip: &str, stops: &Stops) -> Result<(), Unmade> {
    let run = run(alloc, trip, stops)?;
    Ok(list.push(run)?)
}

/// The run of a trip, made as that of an added one.
fn run(alloc: Global, trip: &str, stops: &Stops) -> Result<Run, Unmade> {
    let news = news(alloc, trip)?;
    match added_run(alloc, &news, stops) {
        Ok(Some(run)) => Ok(run),
        _ => Err(Unmade),
    }
}

/// News of an added trip.
fn news(alloc: Global, trip: &str) -> Result<TripNews, Unmade> {
    let stops = served(alloc, trip)?;
    Ok(TripNews {
        trip: bytes(alloc, trip)?,
        date: Some(ServiceDate {
            year: 2024,
            month: 5,
            day: 1,
        }),
        start: None,
        kind: TripKind::Added,
        stops,
    })
}

fn served(alloc: Global, trip: &str) -> Result<StopNewsList, Unmade> {
    let mut list = Vec::new(alloc);
    push_each(alloc, &mut list, trip)?;
    Ok(StopNewsList::from_list(list))
}

fn push_each(alloc: Global, list: &mut Vec<StopNews>, trip: &str) -> Result<(), Unmade> {
    for row in &SERVED {
        if row.0 == trip {
            push_served(alloc, list, row)?;
        }
    }
    Ok(())
}

fn push_served(alloc: Global, list: &mut Vec<StopNews>, row: &Served) -> Result<(), Unmade> {
    let news = stop_news(alloc, row)?;
    Ok(list.push(news)?)
}

fn stop_news(alloc: Global, &(_, stop, arr, dep): &Served) -> Result<StopNews, Unmade> {
    let stop = Some(bytes(alloc, stop)?);
    let (arr, dep) = (timed(arr), timed(dep));
    Ok(StopNews::new(alloc, None, stop, Relation::Scheduled, arr, dep)?)
}

fn timed(second: u32) -> Option<Event> {
    Some(Event {
        delay: None,
        time: Some(MIDNIGHT as i64 + second as i64),
    })
}

pub(crate) fn bytes(alloc: Global, text: &str) -> Result<Bytes, Unmade> {
    Ok(Bytes::from_list(text.as_bytes().to_vec(alloc)?))
}
