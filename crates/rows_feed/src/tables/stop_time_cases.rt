//! What stop_times.txt says, or the first rule that it breaks.
use super::recorded::put_file;
use gtfs_tables::{FileFault, StopTime, TimedTrips, read_stop_times, read_stops, read_trips};
use lc_model::Stops;
use rows_common::Draft;
use std::alloc::Global;

const STOPS: &str = "stop_id\nA\nB\nC\n";

const TRIPS: &str = "trip_id,service_id\nT2,v\nT1,v\nT3,v\n";

const HEADER: &str =
    "trip_id,stop_id,stop_sequence,arrival_time,departure_time,pickup_type,drop_off_type\n";

/// The rows below the header.
const FILES: [&str; 27] = [
    "",
    "T1,A,1,08:00:00\n",
    ",A,1,08:00:00,,,\n",
    // The sequence is compared as a number, and the later row is named.
    "T1,A,1,08:00:00,,,\nT1,B,01,08:00:00,,,\n",
    "T1,A,1,08:00:00,,,\nT2,B,1,08:00:00,,,\n",
    "T1,X,1,08:00:00,,,\n",
    "T9,A,1,08:00:00,,,\n",
    "T1,A,,08:00:00,,,\n",
    "T1,A,4294967295,08:00:00,,,\n",
    "T1,A,4294967296,08:00:00,,,\n",
    "T1,A,00000000001,08:00:00,,,\n",
    "T1,A,1,8:60:00,,,\n",
    "T1,A,1,,x,,\n",
    // In a row the rules are tested in order of number.
    "T9,X,x,x,x,,\n",
    "T9,A,x,x,x,,\n",
    "T1,A,x,x,x,,\n",
    // Without a stop only 6, 7, 9 and 11 are tested, and 13 and 14 are not tested for the trip.
    ",,1,x,x,,\n",
    "T9,,1,x,x,,\n",
    "T1,,x,x,x,,\n",
    "T1,,1,x,x,,\nT1,A,2,,,,\n",
    "T1,,1,x,x,,\nT1,,1,x,x,,\n",
    // The first row of a trip, then its last, by sequence.
    "T1,B,2,,,,\nT1,A,1,08:00:00,,,\n",
    "T1,B,2,08:00:00,,,\nT1,A,1,,,,\n",
    "T1,A,1,08:00:00,,,\nT1,B,2,,,,\nT1,C,3,,08:00:00,,\n",
    // Arrival, departure, arrival: of two trips the first in trips.txt is named.
    "T1,A,1,08:00:01,08:00:00,,\n",
    "T1,A,1,08:00:00,08:10:00,,\nT1,B,2,,,,\nT1,C,3,08:09:59,,,\n",
    "T1,A,1,,,,\nT2,A,1,,08:00:00,,\nT2,B,2,07:00:00,,,\n",
];

/// A line for each of `FILES`, and the lines of `ROWS`.
pub(super) fn put_files(alloc: Global, draft: &mut Draft) {
    let Ok(stops) = read_stops(alloc, STOPS.as_bytes()) else {
        return draft.lose();
    };
    for &rows in &FILES {
        let read = read_rows(alloc, &stops, rows);
        put_file(draft, "stop_times.txt, rows ", rows.as_bytes(), &read);
    }
    match read_rows(alloc, &stops, ROWS) {
        Ok(timed) => put_timed(draft, &timed),
        Err(_) => draft.lose(),
    }
}

fn read_rows(alloc: Global, stops: &Stops, rows: &str) -> Result<TimedTrips, FileFault> {
    let file = format!(in alloc; "{HEADER}{rows}")?;
    read_file(alloc, stops, file.as_bytes())
}

fn read_file(alloc: Global, stops: &Stops, bytes: &[u8]) -> Result<TimedTrips, FileFault> {
    let trips = read_trips(alloc, TRIPS.as_bytes())?;
    read_stop_times(alloc, bytes, stops, trips)
}

/// Rows of three trips, one of which has a row without a stop.
const ROWS: &str =
    "T2,B,9,08:20:00,,,\nT1,C,10,8:30:00,8:30:00,1,0\nT3,,1,,,,\nT1,A,9,08:00:00,,11,1\nT3,A,2,08:00:00,,,\n";

/// A line for each stop time, by trip and sequence, one for each trip, and one for those left out.
fn put_timed(draft: &mut Draft, timed: &TimedTrips) {
    for time in timed.times.as_slice() {
        put_time(draft, time);
    }
    for trip in timed.trips.as_slice() {
        draft.put_all(&["timed trip: ", trip.trip.as_str(), "\n"]);
    }
    draft.put("left out: ");
    draft.put_shown(&timed.left_out);
    draft.put("\n");
}

/// The trip, the stop, the sequence, the arrival and the departure, where 1 means none, and whether one may board and alight.
fn put_time(draft: &mut Draft, time: &StopTime) {
    draft.put_all(&["stop time: ", time.trip.as_str(), " ", time.stop.as_str()]);
    for number in &[time.seq, time.arr.unwrap_or(1), time.dep.unwrap_or(1)] {
        draft.put(" ");
        draft.put_shown(number);
    }
    draft.put(" ");
    draft.put_shown(&time.board);
    draft.put(" ");
    draft.put_shown(&time.alight);
    draft.put("\n");
}
