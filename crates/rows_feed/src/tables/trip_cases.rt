//! What stops.txt and trips.txt say, or the first rule that each breaks.
use super::recorded::put_file;
use gtfs_tables::{read_stops, read_trips};
use lc_model::Stop;
use rows_common::Draft;
use std::alloc::Global;

const STOP_FILES: [&[u8]; 12] = [
    b"stop_id\n\xFF\n",
    b"",
    b"stop_name\nA\n",
    b"stop_id,stop_name\nA,a\nB\n",
    // Rule 5 is tested over all rows before any other.
    b"stop_id,stop_name\n,a\nB\n",
    b"stop_id\nA\n  \n",
    // Of two rows of one id the later is named.
    b"stop_id\nA\nB\n A\nB\n",
    b"stop_id,parent_station\nA,\nB,C\n",
    // A parent may be after its child.
    b"\xEF\xBB\xBFstop_id,parent_station\nB,A\nA,\n",
    // In a row the rules are tested in order of number, and the first row counts.
    b"stop_id,parent_station\n,C\n",
    b"stop_id,parent_station\nA,\nA,C\n",
    b"stop_id,parent_station\nA,C\nA,\n",
];

/// A line for each of `STOP_FILES`, and for each stop of a file.
pub(super) fn put_stops(alloc: Global, draft: &mut Draft) {
    for &bytes in &STOP_FILES {
        put_file(draft, "stops.txt ", bytes, &read_stops(alloc, bytes));
    }
    let file = "stop_name,stop_id,parent_station\nHall,B, A\nYard,A,\n";
    match read_stops(alloc, file.as_bytes()) {
        Ok(stops) => {
            for stop in stops.as_slice() {
                put_stop(draft, stop);
            }
        }
        Err(_) => draft.lose(),
    }
}

fn put_stop(draft: &mut Draft, stop: &Stop) {
    draft.put_all(&["stop ", stop.id.as_str(), ": ", stop.name.as_str()]);
    match &stop.parent {
        Some(parent) => draft.put_all(&[", parent ", parent.as_str(), "\n"]),
        None => draft.put(", no parent\n"),
    }
}

/// A line for 100,000 stops, and one for a row more, which has the id of the first. The limit comes before the rules of rows.
pub(super) fn put_many_stops(alloc: Global, draft: &mut Draft) {
    let mut file = Draft::new(alloc);
    file.put("stop_id\n");
    for stop in 0..100_000u32 {
        file.put_shown(&stop);
        file.put("\n");
    }
    put_file(
        draft,
        "100000 stops",
        b"",
        &read_stops(alloc, file.as_bytes()),
    );
    file.put("0\n");
    put_file(
        draft,
        "a stop more",
        b"",
        &read_stops(alloc, file.as_bytes()),
    );
}

const TRIP_FILES: [&[u8]; 8] = [
    b"trip_id,service_id\n\xFF,v\n",
    b"",
    b"trip_id\nT\n",
    b"trip_id,service_id\nT,v\nU\n",
    b"trip_id,service_id\nT,v\n,v\n",
    b"trip_id,service_id\nT,v\nT, \n",
    b"trip_id,service_id\nT,v\nU,v\nT,w\n",
    b"trip_id,service_id\n",
];

/// A line for each of `TRIP_FILES`, and for each trip of a file: its service.
pub(super) fn put_trips(alloc: Global, draft: &mut Draft) {
    for &bytes in &TRIP_FILES {
        put_file(draft, "trips.txt ", bytes, &read_trips(alloc, bytes));
    }
    match read_trips(alloc, b"service_id,trip_id\nv,U\nw,T\n".as_slice()) {
        Ok(trips) => {
            for row in trips.as_slice() {
                draft.put_all(&["trip ", row.trip.as_str(), ": ", row.service.as_str(), "\n"]);
            }
        }
        Err(_) => draft.lose(),
    }
}
