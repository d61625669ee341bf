//! What transfers.txt says of the stops A and B, or the first rule that it breaks.
use super::recorded::put_file;
use gtfs_tables::{Transfer, read_stops, read_transfers};
use rows_common::Draft;
use std::alloc::Global;

const FILES: [&[u8]; 11] = [
    b"from_stop_id,to_stop_id\nA,\xFF\n",
    b"",
    b"from_stop_id,transfer_type\nA,2\n",
    b"from_stop_id,to_stop_id\nA\n",
    b"from_stop_id,to_stop_id\nA,B\nA,C\n",
    b"from_stop_id,to_stop_id,transfer_type,min_transfer_time\nC,A,3,x\n",
    // Where the type is unreadable no stop is looked for.
    b"from_stop_id,to_stop_id,transfer_type\nC,A,x\n",
    b"from_stop_id,to_stop_id,transfer_type\nA,B,-1\n",
    // The numbers of a row that is passed over are read too.
    b"from_stop_id,to_stop_id,transfer_type,min_transfer_time\nC,A,4,4294967296\n",
    b"from_stop_id,to_stop_id,transfer_type,from_route_id\nA,C,,r\nA,C,4,\nC,,2,\n",
    b"from_stop_id,to_stop_id,to_trip_id,from_trip_id,to_route_id\nA,C,t,,\nA,C,,t,\nA,C,,,r\n",
];

const TRANSFERS: &[u8] =
    b"min_transfer_time,to_stop_id,from_stop_id,transfer_type\n300,B,A,2\n9,,A,2\n,B,B,\n4294967295,A,B,03\n1,A,A,4\n";

/// A line for each of `FILES` and for each transfer of `TRANSFERS`: its ends, its type and its seconds.
pub(super) fn put_transfers(alloc: Global, draft: &mut Draft) {
    let Ok(stops) = read_stops(alloc, b"stop_id,stop_name\nA,A\nB,B\n".as_slice()) else {
        return draft.lose();
    };
    for &bytes in &FILES {
        let read = read_transfers(alloc, bytes, &stops);
        put_file(draft, "transfers.txt ", bytes, &read);
    }
    match read_transfers(alloc, TRANSFERS, &stops) {
        Ok(transfers) => {
            for transfer in transfers.as_slice() {
                put_transfer(draft, transfer);
            }
        }
        Err(_) => draft.lose(),
    }
}

fn put_transfer(draft: &mut Draft, transfer: &Transfer) {
    let (from, to) = (transfer.from.as_str(), transfer.to.as_str());
    draft.put_all(&["transfer ", from, " ", to, ": "]);
    draft.put_shown(&transfer.kind);
    match transfer.seconds {
        Some(seconds) => {
            draft.put(", seconds ");
            draft.put_shown(&seconds);
        }
        None => draft.put(", no seconds"),
    }
    draft.put("\n");
}
