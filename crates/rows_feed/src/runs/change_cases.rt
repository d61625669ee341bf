//! Changes between stops, worked out by hand from the GTFS Schedule Reference, transfers.txt.
use change_table::{ChangeFault, changes};
use gtfs_tables::{Transfer, Transfers, read_stops};
use lc_model::{Change, Changes, Id, Stops};
use lc_time::read_u32;
use rows_common::{Draft, Unmade};
use std::alloc::Global;

/// A station and its two children, a second station with one child, and a stop of its own.
const STATIONS: &str =
    "stop_id,stop_name,parent_station\nP,P,\nP1,P1,P\nP2,P2,P\nQ,Q,\nQ1,Q1,Q\nS,S,\n";

/// Rows, parted by spaces. Each has the stop or station from which it goes, that to which it goes, its type and its seconds.
/// Then come the stops from and to which a change is looked for.
const BY_ROWS: [(&str, &str, &str); 27] = [
    ("", "P1", "P2"),
    ("", "P1", "P1"),
    ("", "P", "P"),
    ("", "P1", "P"),
    ("", "P", "P1"),
    ("", "P1", "Q1"),
    ("", "P", "S"),
    ("P,P,2,300", "P1", "P2"),
    ("P,P,2,300", "P1", "P1"),
    ("P,P,2,300", "P", "P"),
    ("P,P,2,300", "P1", "P"),
    ("P,P,2,300", "Q1", "Q1"),
    ("P,P,2,300 P1,P2,3,", "P1", "P2"),
    ("P1,P2,3, P,P,2,300", "P1", "P2"),
    ("P1,P2,3, P,P,2,300", "P2", "P1"),
    ("P1,P2,4, P,P,2,300", "P1", "P2"),
    ("P1,P2,2,60 P1,P2,3,", "P1", "P2"),
    ("P1,Q,2,60", "P1", "Q1"),
    ("P1,Q,2,60", "P2", "Q1"),
    ("P,Q1,2,60 P1,Q,2,90", "P1", "Q1"),
    ("P,Q1,2,60", "P2", "Q1"),
    ("P,Q,0,60", "P2", "Q1"),
    ("P,Q,1,60", "P2", "Q1"),
    ("P,Q,2,", "P2", "Q1"),
    ("P,Q,2,0", "P2", "Q1"),
    ("P,Q,2,60", "Q1", "P2"),
    ("S,S,3,", "S", "S"),
];

/// A line for each row of `BY_ROWS`: the seconds of the change, by a usual 120.
pub(super) fn put_by_rows(alloc: Global, draft: &mut Draft) {
    match read_stops(alloc, STATIONS.as_bytes()) {
        Ok(stops) => {
            for &(rows, from, to) in &BY_ROWS {
                put_change(alloc, draft, &stops, rows, from, to);
            }
        }
        Err(_) => draft.lose(),
    }
}

fn put_change(alloc: Global, draft: &mut Draft, stops: &Stops, rows: &str, from: &str, to: &str) {
    draft.put_all(&["'", rows, "' from ", from, " to ", to, ": "]);
    match changes_by(alloc, stops, rows) {
        Ok(changes) => put_between(draft, &changes, id_of(stops, from), id_of(stops, to)),
        Err(Unmade) => draft.lose(),
    }
}

/// The changes at these stops by these rows, and by a usual 120 seconds.
fn changes_by(alloc: Global, stops: &Stops, rows: &str) -> Result<Changes, Unmade> {
    let mut list = Vec::new(alloc);
    push_rows(alloc, &mut list, rows)?;
    let transfers = Transfers::from_list(list);
    Ok(changes(alloc, stops, &transfers, 120)?)
}

/// The id of the stop of this name.
fn id_of<'a>(stops: &'a Stops, name: &str) -> Option<&'a Id> {
    for stop in stops.as_slice() {
        if stop.id.as_str() == name {
            return Some(&stop.id);
        }
    }
    None
}

fn put_between(draft: &mut Draft, changes: &Changes, from: Option<&Id>, to: Option<&Id>) {
    let (Some(from), Some(to)) = (from, to) else {
        return draft.lose();
    };
    match changes.between(from, to) {
        Some(seconds) => draft.put_shown(&seconds),
        None => draft.put("no change"),
    }
    draft.put("\n");
}

fn push_rows(alloc: Global, list: &mut Vec<Transfer>, rows: &str) -> Result<(), Unmade> {
    for row in rows.split_ascii_whitespace() {
        push_row(alloc, list, row)?;
    }
    Ok(())
}

fn push_row(alloc: Global, list: &mut Vec<Transfer>, row: &str) -> Result<(), Unmade> {
    let mut fields = row.split(',');
    let (Some(from), Some(to), Some(kind)) = (fields.next(), fields.next(), fields.next()) else {
        return Err(Unmade);
    };
    let seconds = fields.next().unwrap_or("");
    push_transfer(alloc, list, (from, to), kind, seconds)
}

fn push_transfer(
    alloc: Global,
    list: &mut Vec<Transfer>,
    ends: (&str, &str),
    kind: &str,
    seconds: &str,
) -> Result<(), Unmade> {
    let Some(kind) = read_u32(kind.as_bytes()) else {
        return Err(Unmade);
    };
    list.push(Transfer {
        from: id(alloc, ends.0)?,
        to: id(alloc, ends.1)?,
        kind,
        seconds: read_u32(seconds.as_bytes()),
    })?;
    Ok(())
}

fn id(alloc: Global, text: &str) -> Result<Id, Unmade> {
    match Id::new(alloc, text.as_bytes()) {
        Ok(Some(id)) => Ok(id),
        _ => Err(Unmade),
    }
}

/// Six stops of their own.
const SIX_STOPS: &str = "stop_id,stop_name\nA,A\nB,B\nC,C\nD,D\nE,E\nF,F\n";

/// A line for each of four usual seconds: the changes at six stops without a row.
pub(super) fn put_single_stops(alloc: Global, draft: &mut Draft) {
    let Ok(stops) = read_stops(alloc, SIX_STOPS.as_bytes()) else {
        return draft.lose();
    };
    let no_transfers = Transfers::from_list(Vec::new(alloc));
    for &default in &[120, 1, 0, u32::MAX] {
        put_all(alloc, draft, &stops, &no_transfers, default);
    }
}

fn put_all(alloc: Global, draft: &mut Draft, stops: &Stops, transfers: &Transfers, default: u32) {
    draft.put_shown(&default);
    draft.put(" seconds as usual: ");
    match changes(alloc, stops, transfers, default) {
        Ok(changes) => put_changes(draft, changes.as_slice()),
        Err(_) => draft.lose(),
    }
}

fn put_changes(draft: &mut Draft, changes: &[Change]) {
    draft.put_shown(&changes.len());
    draft.put(" changes; ");
    for change in changes {
        draft.put_all(&[change.from.as_str(), " ", change.to.as_str(), " "]);
        draft.put_shown(&change.seconds);
        draft.put("; ");
    }
    draft.put("\n");
}

/// A line for a station: between its 1,000 children there are 1,000,000 changes, and the station itself is one more.
pub(super) fn put_large_station(alloc: Global, draft: &mut Draft) {
    let mut file = Draft::new(alloc);
    file.put("stop_id,stop_name,parent_station\nP,P,\n");
    for number in 1_000..2_000u32 {
        file.put("P");
        file.put_shown(&number);
        file.put(",P");
        file.put_shown(&number);
        file.put(",P\n");
    }
    match read_stops(alloc, file.as_bytes()) {
        Ok(stops) => put_large_station_of(alloc, draft, &stops),
        Err(_) => draft.lose(),
    }
}

fn put_large_station_of(alloc: Global, draft: &mut Draft, stops: &Stops) {
    draft.put_shown(&stops.as_slice().len());
    draft.put(" stops at a station: ");
    let no_transfers = Transfers::from_list(Vec::new(alloc));
    match changes(alloc, stops, &no_transfers, 120) {
        Ok(_) => draft.put("changes"),
        Err(fault) => draft.put_shown(&fault),
    }
    draft.put("\n");
}

/// A line for each fault, as it is printed.
pub(super) fn put_faults(draft: &mut Draft) {
    draft.put("too many changes: ");
    draft.put_shown(&ChangeFault::TooManyChanges { count: 1_000_001 });
    draft.put("\nout of memory: ");
    draft.put_shown(&ChangeFault::NoMemory);
    draft.put("\n");
}
