//! Links to publishers of the small feed Tiny, with its own trips alone or with T8, which goes from A to D at once.
use crate::making::{MIDNIGHT, base, bytes};
use fragmenter::{BySpan, Cutting};
use lc_links::LocalLink;
use lc_model::{
    Event, Moment, Relation, Run, Runs, ServiceDate, StopNews, StopNewsList, Stops, StopsDoc,
    TripKind, TripNews,
};
use lc_time::Zone;
use live_calls::added_run;
use page_json::read_stops;
use publisher::{Options, Publisher};
use rows_common::Unmade;
use std::alloc::Global;

/// A call of a trip: its stop, and the seconds of arrival and departure there.
pub(crate) type Served = (&'static str, &'static str, u32, u32);

/// The calls of the small feed, in the order of each trip.
static TINY: [Served; 11] = [
    ("T1", "A", 28_800, 28_800),
    ("T1", "B", 29_400, 29_460),
    ("T1", "C", 30_600, 30_600),
    ("T2", "B", 30_000, 30_000),
    ("T2", "D", 31_200, 31_200),
    ("T3", "B", 29_520, 29_520),
    ("T3", "D", 30_660, 30_660),
    ("T4", "E", 32_400, 32_400),
    ("T4", "F", 33_000, 33_000),
    ("T5", "E", 36_000, 36_000),
    ("T5", "F", 36_600, 36_600),
];

static TRIPS: [&str; 6] = ["T1", "T2", "T3", "T4", "T5", "T8"];

/// Six stops, and a change of two minutes at each of them.
const STOPS: &str =
    r#"{"changes":[{"from":"A","seconds":120,"to":"A"},{"from":"B","seconds":120,"to":"B"},{"from":"C","seconds":120,"to":"C"},{"from":"D","seconds":120,"to":"D"},{"from":"E","seconds":120,"to":"E"},{"from":"F","seconds":120,"to":"F"}],"stops":[{"id":"A"},{"id":"B"},{"id":"C"},{"id":"D"},{"id":"E"},{"id":"F"}]}"#;

/// A link to a publisher of the trips of Tiny and of these calls, with pages by half hours. It takes messages, or not.
pub(crate) fn link(
    alloc: Global,
    more: &[Served],
    accept_updates: bool,
) -> Result<LocalLink<Cutting>, Unmade> {
    let publisher = publisher(alloc, more, accept_updates)?;
    Ok(LocalLink::new(alloc, publisher)?)
}

fn publisher(
    alloc: Global,
    more: &[Served],
    accept_updates: bool,
) -> Result<Publisher<Cutting>, Unmade> {
    let options = options(alloc, accept_updates)?;
    let doc = read_stops(alloc, STOPS.as_bytes())?;
    publisher_of(alloc, more, doc, options)
}

fn options(alloc: Global, accept_updates: bool) -> Result<Options, Unmade> {
    Ok(Options {
        base: base(alloc)?,
        accept_updates,
    })
}

fn publisher_of(
    alloc: Global,
    more: &[Served],
    doc: StopsDoc,
    options: Options,
) -> Result<Publisher<Cutting>, Unmade> {
    let runs = runs(alloc, more, &doc.stops)?;
    let Some(start) = Moment::new(0) else {
        return Err(Unmade);
    };
    let cutting = Cutting::Span(BySpan { seconds: 1800 });
    Ok(Publisher::new(alloc, runs, doc, Zone::Utc, start, cutting, options)?)
}

fn runs(alloc: Global, more: &[Served], stops: &Stops) -> Result<Runs, Unmade> {
    let mut list = Vec::new(alloc);
    push_runs(alloc, &mut list, more, stops)?;
    match Runs::try_from_list(list) {
        Ok(runs) => Ok(runs),
        Err(_) => Err(Unmade),
    }
}

fn push_runs(
    alloc: Global,
    list: &mut Vec<Run>,
    more: &[Served],
    stops: &Stops,
) -> Result<(), Unmade> {
    for trip in &TRIPS {
        push_run(alloc, list, *trip, more, stops)?;
    }
    Ok(())
}

/// Adds the run of a trip that has calls, made as that of an added one.
fn push_run(
    alloc: Global,
    list: &mut Vec<Run>,
    trip: &str,
    more: &[Served],
    stops: &Stops,
) -> Result<(), Unmade> {
    let news = news(alloc, trip, more)?;
    match added_run(alloc, &news, stops) {
        Ok(Some(run)) => Ok(list.push(run)?),
        Ok(None) => Ok(()),
        Err(_) => Err(Unmade),
    }
}

/// News of an added trip.
fn news(alloc: Global, trip: &str, more: &[Served]) -> Result<TripNews, Unmade> {
    let stops = served(alloc, trip, more)?;
    Ok(TripNews {
        trip: bytes(alloc, trip)?,
        date: Some(ServiceDate {
            year: 2024,
            month: 5,
            day: 1,
        }),
        start: None,
        kind: TripKind::Added,
        stops,
    })
}

fn served(alloc: Global, trip: &str, more: &[Served]) -> Result<StopNewsList, Unmade> {
    let mut list = Vec::new(alloc);
    push_each(alloc, &mut list, trip, &TINY)?;
    push_each(alloc, &mut list, trip, more)?;
    Ok(StopNewsList::from_list(list))
}

fn push_each(
    alloc: Global,
    list: &mut Vec<StopNews>,
    trip: &str,
    rows: &[Served],
) -> Result<(), Unmade> {
    for row in rows {
        if row.0 == trip {
            push_served(alloc, list, row)?;
        }
    }
    Ok(())
}

fn push_served(
    alloc: Global,
    list: &mut Vec<StopNews>,
    &(_, stop, arr, dep): &Served,
) -> Result<(), Unmade> {
    let stop = Some(bytes(alloc, stop)?);
    let (arr, dep) = (timed(arr), timed(dep));
    let news = StopNews::new(alloc, None, stop, Relation::Scheduled, arr, dep)?;
    Ok(list.push(news)?)
}

fn timed(second: u32) -> Option<Event> {
    Some(Event {
        delay: None,
        time: Some(MIDNIGHT as i64 + second as i64),
    })
}
