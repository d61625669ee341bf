//! What is said of a whole feed, a file of which is changed or absent.
use gtfs_tables::{FeedFault, Tables, What, read_feed};
use lc_io::{File, MemFolder};
use lc_model::PlainData;
use rows_common::{Draft, Unmade};
use std::alloc::Global;
use tiny_feed::{STOP_TIMES, TINY, file_of};

const STATIONS: &str = "stop_id,parent_station\nA,\nB,A\nC,Z\n";

const TWO_ROWS: &str = "trip_id,stop_id,stop_sequence,arrival_time,departure_time\n\
    T1,A,1,08:00:00,\nT1,B,1,08:10:00,\n";

const NO_TRIP: &str = "trip_id,stop_id,stop_sequence,arrival_time,departure_time\n\
    T1,A,1,08:00:00,\nT1,B,2,,\nT1,C,3,08:10:00,\nT9,A,1,08:00:00,\n";

const WEEKLY: &str =
    "service_id,monday,tuesday,wednesday,thursday,friday,saturday,sunday,start_date,end_date\n\
    w,1,1,1,1,1,0,0,20240501,20240531\n";

const TWO_DATES: &str = "service_id,date,exception_type\nw,20240501,1\nw,20240501,2\n";

const FREQUENCIES: &str = "trip_id,start_time,end_time,headway_secs\nT5,10:00:00,11:00:00,600\n";

const TRANSFERS: &str = "from_stop_id,to_stop_id,transfer_type,min_transfer_time\nA,B,2,60\n";

const NO_SUCH_TRIP: &str = "trip_id,start_time,end_time,headway_secs\nT9,10:00:00,11:00:00,600\n";

const NO_STOP: &str = "from_stop_id,to_stop_id\nA,Z\n";

/// The whole feed, and files of it that are absent.
const ABSENT: [(&str, &str); 5] = [
    ("whole", ""),
    ("tiny/stops.txt absent", "tiny/stops.txt"),
    ("tiny/trips.txt absent", "tiny/trips.txt"),
    ("tiny/stop_times.txt absent", "tiny/stop_times.txt"),
    ("tiny/calendar_dates.txt absent", "tiny/calendar_dates.txt"),
];

/// A line for each row of `ABSENT`: how many rows each table has, in the order of the files, and how many trips are left out. Or the
/// fault. Then it says how many files the directory was asked for.
fn put_absent(alloc: Global, draft: &mut Draft) {
    for &(name, absent) in &ABSENT {
        draft.put_all(&[name, ": "]);
        put_said(alloc, draft, absent, &[], 8);
    }
}

/// Files of the feed that are changed.
const CHANGED: [(&str, &str); 15] = [
    ("tiny/calendar.txt", WEEKLY),
    ("tiny/frequencies.txt", FREQUENCIES),
    ("tiny/transfers.txt", TRANSFERS),
    ("tiny/stops.txt", "stop_id\nA\nA\n"),
    ("tiny/stops.txt", STATIONS),
    ("tiny/trips.txt", "trip_id,service_id\nT1,w\nT1,v\n"),
    ("tiny/stop_times.txt", TWO_ROWS),
    // Of the rows of the feed the third is the first at another stop.
    ("tiny/stops.txt", "stop_id\nA\nB\n"),
    ("tiny/stop_times.txt", NO_TRIP),
    ("tiny/calendar.txt", "service_id\n"),
    ("tiny/calendar_dates.txt", TWO_DATES),
    ("tiny/frequencies.txt", ""),
    ("tiny/frequencies.txt", NO_SUCH_TRIP),
    ("tiny/transfers.txt", "from_stop_id\nA\n"),
    ("tiny/transfers.txt", NO_STOP),
];

/// A line for each file of `CHANGED`, as for the whole feed.
fn put_changed(alloc: Global, draft: &mut Draft) {
    for &(name, file) in &CHANGED {
        draft.put_all(&[name, " "]);
        draft.put_escaped(file.as_bytes());
        draft.put(": ");
        put_said(alloc, draft, name, &[(name, file)], 8);
    }
}

/// Ends a line with what is said of the feed without the file of this name and with others, where the read of this number fails.
fn put_said(alloc: Global, draft: &mut Draft, absent: &str, others: &[(&str, &str)], fails: u64) {
    match folder(alloc, absent, others, fails) {
        Ok(mut folder) => put_read(alloc, draft, &mut folder),
        Err(Unmade) => draft.lose(),
    }
}

fn folder(
    alloc: Global,
    absent: &str,
    others: &[(&str, &str)],
    fails: u64,
) -> Result<MemFolder, Unmade> {
    let mut files = Vec::new(alloc);
    push_files(alloc, &mut files, absent, others)?;
    let fails = vec![in alloc; fails]?;
    Ok(MemFolder::new(alloc, files, fails)?)
}

/// The files of the feed but that of this name, and the others.
fn push_files(
    alloc: Global,
    files: &mut Vec<File>,
    absent: &str,
    others: &[(&str, &str)],
) -> Result<(), Unmade> {
    for &(name, text) in &TINY {
        if name != absent {
            push(alloc, files, name, text)?;
        }
    }
    for &(name, text) in others {
        push(alloc, files, name, text)?;
    }
    Ok(())
}

fn push(alloc: Global, files: &mut Vec<File>, name: &str, text: &str) -> Result<(), Unmade> {
    files.push(file_of(alloc, name, text)?)?;
    Ok(())
}

fn put_read(alloc: Global, draft: &mut Draft, folder: &mut MemFolder) {
    match read_feed(alloc, folder, "tiny") {
        Ok(tables) => put_tables(alloc, draft, &tables),
        Err(fault) => put_fault(draft, fault),
    }
    draft.put(", asked ");
    draft.put_shown(&folder.asked().len());
    draft.put("\n");
}

/// Tables, of which a copy can be made.
fn put_tables(alloc: Global, draft: &mut Draft, tables: &Tables) {
    draft.need(tables.copy(alloc));
    for size in &[
        tables.stops.as_slice().len(),
        tables.trips.as_slice().len(),
        tables.stop_times.as_slice().len(),
        tables.services.weekly.as_slice().len(),
        tables.services.dates.as_slice().len(),
        tables.frequencies.as_slice().len(),
        tables.transfers.as_slice().len(),
    ] {
        draft.put_shown(size);
        draft.put(" ");
    }
    draft.put("left out ");
    draft.put_shown(&tables.left_out);
}

fn put_fault(draft: &mut Draft, fault: FeedFault) {
    match fault {
        FeedFault::Broken { rule, file, row } => {
            draft.put("rule ");
            draft.put_shown(&rule);
            draft.put_all(&[" ", file.name(), " row "]);
            draft.put_shown(&row);
        }
        FeedFault::TooLarge { what, count } => {
            draft.put_shown(&what);
            draft.put(" ");
            draft.put_shown(&count);
        }
        FeedFault::Folder { before, after } => {
            draft.put("folder ");
            draft.put_shown(&before);
            draft.put(" ");
            draft.put_shown(&after);
        }
        FeedFault::NoMemory => draft.put("no memory"),
    }
}

/// A line for a feed with calendar.txt alone: one calendar is enough.
fn put_other_calendar(alloc: Global, draft: &mut Draft) {
    draft.put("calendar.txt alone: ");
    let calendar = ("tiny/calendar.txt", WEEKLY);
    put_said(alloc, draft, "tiny/calendar_dates.txt", &[calendar], 8);
}

/// A line for a trip with a row that names no stop: it is left out, and its frequencies are read.
fn put_left_out(alloc: Global, draft: &mut Draft) {
    let mut file = Draft::new(alloc);
    file.put_all(&[STOP_TIMES, "T5,,,,3\n"]);
    draft.also(&file);
    draft.put("a row without a stop: ");
    let frequencies = ("tiny/frequencies.txt", FREQUENCIES);
    let times = ("tiny/stop_times.txt", file.as_str());
    put_said(
        alloc,
        draft,
        "tiny/stop_times.txt",
        &[frequencies, times],
        8,
    );
}

/// A line for each read of seven that fails.
fn put_failed_reads(alloc: Global, draft: &mut Draft) {
    for read in 1..8 {
        draft.put("read ");
        draft.put_shown(&read);
        draft.put(" fails: ");
        put_said(alloc, draft, "", &[], read);
    }
}

/// A line for 100,001 stops.
fn put_too_many(alloc: Global, draft: &mut Draft) {
    let mut file = Draft::new(alloc);
    file.put("stop_id\n");
    file.put_times("A\n", 100_001);
    draft.also(&file);
    draft.put("100001 stops: ");
    let stops = ("tiny/stops.txt", file.as_str());
    put_said(alloc, draft, "tiny/stops.txt", &[stops], 2);
}

/// A line with the names that a whole feed is asked for, in turn.
fn put_asked(alloc: Global, draft: &mut Draft) {
    match folder(alloc, "", &[], 8) {
        Ok(mut folder) => put_names(alloc, draft, &mut folder),
        Err(Unmade) => draft.lose(),
    }
}

fn put_names(alloc: Global, draft: &mut Draft, folder: &mut MemFolder) {
    draft.need(read_feed(alloc, folder, "tiny"));
    draft.put("asked: ");
    for name in folder.asked() {
        draft.put(name.as_str());
        draft.put(" ");
    }
    draft.put("\n");
}

/// A line for each thing of which there may be too much.
fn put_words(draft: &mut Draft) {
    for what in &[
        What::Stops,
        What::Trips,
        What::StopTimes,
        What::Connections,
        What::Changes,
        What::Update,
    ] {
        draft.put("what: ");
        draft.put_shown(what);
        draft.put("\n");
    }
}

/// A line for each case.
pub(crate) fn put_feeds(alloc: Global, draft: &mut Draft) {
    put_absent(alloc, draft);
    put_changed(alloc, draft);
    put_other_calendar(alloc, draft);
    put_left_out(alloc, draft);
    put_failed_reads(alloc, draft);
    put_too_many(alloc, draft);
    put_asked(alloc, draft);
    put_words(draft);
}
