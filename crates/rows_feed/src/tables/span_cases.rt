//! What frequencies.txt says of the trip T, or the first rule that it breaks.
use super::recorded::put_file;
use gtfs_tables::{Frequency, read_frequencies, read_trips};
use rows_common::Draft;
use std::alloc::Global;

const FILES: [&[u8]; 11] = [
    b"trip_id,start_time,end_time,headway_secs\nT\xFF,08:00:00,09:00:00,600\n",
    b"",
    b"trip_id,start_time,end_time\nT,08:00:00,09:00:00\n",
    b"trip_id,start_time,end_time,headway_secs\nT,08:00:00,09:00:00,600\nT,08:00:00,09:00:00\n",
    b"trip_id,start_time,end_time,headway_secs\n,08:00:00,09:00:00,0\n",
    b"trip_id,start_time,end_time,headway_secs\nU,,09:00:00,0\n",
    b"trip_id,start_time,end_time,headway_secs\nT,,09:00:00,0\n",
    b"trip_id,start_time,end_time,headway_secs\nT,08:00:00,09:00:00,4294967296\n",
    b"trip_id,start_time,end_time,headway_secs\nT,08:00:00,09:00:00,00000000600\n",
    b"trip_id,start_time,end_time,headway_secs\nT,,09:00:00,1\n",
    b"trip_id,start_time,end_time,headway_secs\nT,08:00:00,08:60:00,1\n",
];

const SPANS: &[u8] =
    b"trip_id,start_time,end_time,headway_secs\nT,8:00:00,25:10:00,4294967295\nT,08:00:00,09:00:00,0600\n";

/// A line for each of `FILES` and for each row of `SPANS`: the trip, the first start, the end and the seconds between starts.
pub(super) fn put_spans(alloc: Global, draft: &mut Draft) {
    let Ok(trips) = read_trips(alloc, b"trip_id,service_id\nT,w\n".as_slice()) else {
        return draft.lose();
    };
    for &bytes in &FILES {
        let read = read_frequencies(alloc, bytes, &trips);
        put_file(draft, "frequencies.txt ", bytes, &read);
    }
    match read_frequencies(alloc, SPANS, &trips) {
        Ok(frequencies) => {
            for span in frequencies.as_slice() {
                put_span(draft, span);
            }
        }
        Err(_) => draft.lose(),
    }
}

fn put_span(draft: &mut Draft, span: &Frequency) {
    draft.put_all(&["frequency ", span.trip.as_str(), ": "]);
    draft.put_shown(&span.from);
    draft.put(" ");
    draft.put_shown(&span.to);
    draft.put(" ");
    draft.put_shown(&span.headway);
    draft.put("\n");
}
