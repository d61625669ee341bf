//! Runs and their connections, worked out by hand from the GTFS Schedule Reference and from calendars.
use super::zone_cases::put_moment;
use gtfs_tables::{
    Frequencies, TimedTrips, read_calendar_dates, read_frequencies, read_stop_times, read_stops,
    read_trips,
};
use lc_model::{Call, Connection, Connections, Run, Runs, Stops};
use lc_time::{Zone, read_date};
use rows_common::{Draft, Unmade};
use service_days::{Days, days, read_zone};
use std::alloc::Global;
use trip_calls::{are_plannable, connections, is_plannable, runs};

/// The midnight of 2024-05-01 in UTC, from which the times of connections are printed.
const MIDNIGHT: u64 = 1_714_521_600;

const FIVE_TRIPS: &str = "trip_id,service_id\nT1,w\nT2,w\nT3,w\nT4,w\nT5,w\n";

/// Five trips over six stops on one day.
const FIVE_TRIPS_TIMES: &str = "trip_id,arrival_time,departure_time,stop_id,stop_sequence
T1,08:00:00,08:00:00,A,1
T1,08:10:00,08:11:00,B,2
T1,08:30:00,08:30:00,C,3
T2,08:20:00,08:20:00,B,1
T2,08:40:00,08:40:00,D,2
T3,08:12:00,08:12:00,B,1
T3,08:31:00,08:31:00,D,2
T4,09:00:00,09:00:00,E,1
T4,09:10:00,09:10:00,F,2
T5,10:00:00,10:00:00,E,1
T5,10:10:00,10:10:00,F,2
";

const NIGHT_TRIPS: &str = "service_id,trip_id\nw,N\nw,S\nx,X\n";

/// A trip that goes on past midnight, one without stop times, and one of a service that runs on no day.
const NIGHT_TIMES: &str = "trip_id,arrival_time,departure_time,stop_id,stop_sequence
N,23:00:00,23:00:00,A,1
N,25:10:00,25:11:00,B,5
X,08:00:00,08:00:00,A,1
X,09:00:00,09:00:00,B,2
";

const ONE_TRIP: &str = "trip_id,service_id\nT,w\n";

const SPRING_TIMES: &str = "trip_id,arrival_time,departure_time,stop_id,stop_sequence
T,02:30:00,02:30:00,A,1
T,08:00:00,08:00:00,B,2
";

/// Two rows without times between two with one.
const BLANK_TIMES: &str = "trip_id,arrival_time,departure_time,stop_id,stop_sequence
T,08:00:00,,A,1
T,,,B,2
T,,,C,90
T,,08:10:00,D,91
";

const ON_ONE_DAY: &str = "service_id,date,exception_type\nw,20240501,1\n";

/// A night on which Berlin's clock goes from two to three.
const IN_SPRING: &str = "service_id,date,exception_type\nw,20240331,1\n";

const ON_FOUR_DAYS: &str =
    "service_id,date,exception_type\nw,20240501,1\nw,20240502,1\nw,20240503,1\nw,20240504,1\n";

const ONCE: &str = "trip_id,start_time,end_time,headway_secs\n";

/// The trip starts each 20 minutes from six to seven, and two rows give 06:20:00.
const OFTEN: &str = "trip_id,start_time,end_time,headway_secs
T,06:00:00,07:00:00,1200
T,06:20:00,06:20:01,7
T,09:00:00,09:00:00,60
";

/// With three connections and on four dates 359,999 starts are too many.
const EACH_SECOND: &str = "trip_id,start_time,end_time,headway_secs\nT,00:00:00,99:59:59,1\n";

const BERLIN: &str = "posix:CET-1CEST,M3.5.0,M10.5.0/3";

/// The files of a feed, the word of its zone, and the first date of a window of 62 days.
#[derive(Clone, Copy)]
struct Feed<'a> {
    trips: &'a str,
    times: &'a str,
    dates: &'a str,
    frequencies: &'a str,
    zone: &'a str,
    first: &'a str,
}

/// Trips, times, dates and frequencies, the zone, the first date, and the place of one of the runs. A place past the last means
/// the connections.
const FEEDS: [(&str, &str, &str, &str, &str, &str, usize); 8] = [
    (
        FIVE_TRIPS,
        FIVE_TRIPS_TIMES,
        ON_ONE_DAY,
        ONCE,
        "utc",
        "20240501",
        5,
    ),
    (
        NIGHT_TRIPS,
        NIGHT_TIMES,
        ON_ONE_DAY,
        ONCE,
        "utc",
        "20240501",
        0,
    ),
    (
        NIGHT_TRIPS,
        NIGHT_TIMES,
        ON_ONE_DAY,
        ONCE,
        "utc",
        "20240501",
        1,
    ),
    (
        ONE_TRIP,
        SPRING_TIMES,
        IN_SPRING,
        ONCE,
        BERLIN,
        "20240301",
        0,
    ),
    (
        ONE_TRIP,
        BLANK_TIMES,
        ON_ONE_DAY,
        ONCE,
        "utc",
        "20240501",
        0,
    ),
    (
        ONE_TRIP,
        BLANK_TIMES,
        ON_ONE_DAY,
        OFTEN,
        "utc",
        "20240501",
        1,
    ),
    (
        ONE_TRIP,
        BLANK_TIMES,
        ON_ONE_DAY,
        OFTEN,
        "utc",
        "20240501",
        2,
    ),
    (
        ONE_TRIP,
        BLANK_TIMES,
        ON_FOUR_DAYS,
        EACH_SECOND,
        "utc",
        "20240501",
        0,
    ),
];

/// A line for each row of `FEEDS`: how many runs it has, and the calls of one of them, or its connections, a line each.
pub(super) fn put_feeds(alloc: Global, draft: &mut Draft) {
    for &(trips, times, dates, frequencies, zone, first, place) in &FEEDS {
        let feed = Feed {
            trips,
            times,
            dates,
            frequencies,
            zone,
            first,
        };
        put_feed(alloc, draft, feed, place);
    }
}

fn put_feed(alloc: Global, draft: &mut Draft, feed: Feed, place: usize) {
    let Ok(zone) = read_zone(alloc, feed.zone.as_bytes(), None) else {
        return draft.lose();
    };
    match days_of(alloc, feed) {
        Ok(days) => put_feed_on(alloc, draft, feed, &zone, &days, place),
        Err(Unmade) => draft.lose(),
    }
}

fn days_of(alloc: Global, feed: Feed) -> Result<Days, Unmade> {
    let Some(first) = read_date(feed.first.as_bytes()) else {
        return Err(Unmade);
    };
    let dates = read_calendar_dates(alloc, feed.dates.as_bytes())?;
    Ok(days(alloc, &[], dates.as_slice(), first, 62)?)
}

fn put_feed_on(
    alloc: Global,
    draft: &mut Draft,
    feed: Feed,
    zone: &Zone,
    days: &Days,
    place: usize,
) {
    match frequencies_of(alloc, feed) {
        Ok(frequencies) => match timed_of(alloc, feed) {
            Ok(timed) => put_runs(alloc, draft, &timed, zone, days, &frequencies, place),
            Err(Unmade) => draft.lose(),
        },
        Err(Unmade) => draft.lose(),
    }
}

fn frequencies_of(alloc: Global, feed: Feed) -> Result<Frequencies, Unmade> {
    let trips = read_trips(alloc, feed.trips.as_bytes())?;
    Ok(read_frequencies(alloc, feed.frequencies.as_bytes(), &trips)?)
}

fn timed_of(alloc: Global, feed: Feed) -> Result<TimedTrips, Unmade> {
    let stops = read_stops(alloc, b"stop_id\nA\nB\nC\nD\nE\nF\n".as_slice())?;
    timed_at(alloc, feed, &stops)
}

fn timed_at(alloc: Global, feed: Feed, stops: &Stops) -> Result<TimedTrips, Unmade> {
    let trips = read_trips(alloc, feed.trips.as_bytes())?;
    Ok(read_stop_times(alloc, feed.times.as_bytes(), stops, trips)?)
}

fn put_runs(
    alloc: Global,
    draft: &mut Draft,
    timed: &TimedTrips,
    zone: &Zone,
    days: &Days,
    frequencies: &Frequencies,
    place: usize,
) {
    if !are_plannable(days) {
        return draft.lose();
    }
    match runs(alloc, &timed.trips, &timed.times, frequencies, days, zone) {
        Ok(runs) => match connections(alloc, &runs) {
            Ok(list) => put_found(draft, &runs, &list, place),
            Err(_) => draft.lose(),
        },
        Err(fault) => {
            draft.put_shown(&fault);
            draft.put("\n");
        }
    }
}

fn put_found(draft: &mut Draft, runs: &Runs, list: &Connections, place: usize) {
    let runs = runs.as_slice();
    draft.put_shown(&runs.len());
    draft.put(" runs, ");
    match runs.get(place) {
        Some(run) => put_run(draft, run),
        None => put_list(draft, list.as_slice()),
    }
}

/// The trip and its start in seconds, if there is one, and its calls.
fn put_run(draft: &mut Draft, run: &Run) {
    draft.put(run.key.trip.as_str());
    if let Some(start) = run.key.start {
        draft.put(" ");
        draft.put_shown(&start);
    }
    draft.put(": ");
    for call in run.calls.as_slice() {
        put_call(draft, call);
    }
    draft.put("\n");
}

/// The sequence, the arrival and the departure of a call.
fn put_call(draft: &mut Draft, call: &Call) {
    draft.put_shown(&call.seq);
    draft.put(" ");
    put_moment(draft, call.arr);
    draft.put(" ");
    put_moment(draft, call.dep);
    draft.put("; ");
}

fn put_list(draft: &mut Draft, list: &[Connection]) {
    draft.put_shown(&list.len());
    draft.put(" connections\n");
    for connection in list {
        put_connection(draft, connection);
    }
}

fn put_connection(draft: &mut Draft, connection: &Connection) {
    draft.put(connection.key.trip.as_str());
    draft.put(" ");
    draft.put_shown(&connection.seq);
    draft.put(": ");
    put_call_at(
        draft,
        connection.dep_stop.as_str(),
        connection.dep.seconds(),
    );
    draft.put(" ");
    put_call_at(
        draft,
        connection.arr_stop.as_str(),
        connection.arr.seconds(),
    );
    draft.put("\n");
}

fn put_call_at(draft: &mut Draft, stop: &str, second: u64) {
    draft.put(stop);
    draft.put(" ");
    draft.put_shown(&second.wrapping_sub(MIDNIGHT));
}

/// A line for each of five dates: whether runs may be planned on it.
pub(super) fn put_dates(draft: &mut Draft) {
    for &day in &["19700109", "19700110", "99991215", "99991216", "00010101"] {
        match read_date(day.as_bytes()) {
            Some(date) => {
                draft.put_all(&[day, " is plannable: "]);
                draft.put_shown(&is_plannable(date));
                draft.put("\n");
            }
            None => draft.lose(),
        }
    }
}
