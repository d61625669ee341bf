//! The small feed Tiny, by which other crates are tested: five trips over six stops on one day. It builds on `lc_io`.
#![tactic(auto)]

ghost use Rattle.std.specs.Prelude.{◌≡◌, IfOk, map};
ghost use Rattle.tiny_feed.specs.Files.{name_and_text, recorded};

use lc_io::File;
use lc_model::{Bytes, NoMemory, Text};
use std::alloc::Global;

pub const STOPS: &str = "stop_id,stop_name\nA,A\nB,B\nC,C\nD,D\nE,E\nF,F\n";

pub const TRIPS: &str = "route_id,service_id,trip_id\nr,w,T1\nr,w,T2\nr,w,T3\nr,w,T4\nr,w,T5\n";

pub const STOP_TIMES: &str = "trip_id,arrival_time,departure_time,stop_id,stop_sequence
T1,08:00:00,08:00:00,A,1
T1,08:10:00,08:11:00,B,2
T1,08:30:00,08:30:00,C,3
T2,08:20:00,08:20:00,B,1
T2,08:40:00,08:40:00,D,2
T3,08:12:00,08:12:00,B,1
T3,08:31:00,08:31:00,D,2
T4,09:00:00,09:00:00,E,1
T4,09:10:00,09:10:00,F,2
T5,10:00:00,10:00:00,E,1
T5,10:10:00,10:10:00,F,2
";

pub const CALENDAR_DATES: &str = "service_id,date,exception_type\nw,20240501,1\n";

/// The files of the feed, in the directory `tiny`.
pub const TINY: [(&str, &str); 4] = [
    ("tiny/stops.txt", STOPS),
    ("tiny/trips.txt", TRIPS),
    ("tiny/stop_times.txt", STOP_TIMES),
    ("tiny/calendar_dates.txt", CALENDAR_DATES),
];

/// Files of these names and texts.
pub fn files_of(alloc: Global, texts: &[(&str, &str)]) -> Result<Vec<File>, NoMemory>
    ensures { IfOk result (λ files. map name_and_text files.items ≡ map recorded texts.now) }
{
    let mut files = Vec::with_capacity(alloc, texts.len())?;
    for (name, text) in texts {
        files.push(file_of(alloc, *name, *text)?)?;
    }
    Ok(files)
}

/// A file of this name and text.
pub fn file_of(alloc: Global, name: &str, text: &str) -> Result<File, NoMemory>
    ensures name { IfOk result (λ file. file.name ≡ name.now) }
    ensures text { IfOk result (λ file. file.bytes ≡ text.now) }
{
    Ok(File {
        name: Text::from_string(String::from_str(alloc, name)?),
        bytes: Bytes::from_list(text.as_bytes().to_vec(alloc)?),
    })
}
