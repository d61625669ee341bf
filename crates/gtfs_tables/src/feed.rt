ghost use Rattle.std.specs.Prelude.{◌≡◌, [], unwrap_or};
ghost use Rattle.gtfs_tables.specs.Reading.{EndsSo, Keeps};
ghost use Rattle.gtfs_tables.specs.Feed.{what_of as said_what};
ghost use Rattle.gtfs_tables.specs.Steps.{IsFaultOf, IsReportable, IsWalk};

use crate::calendars::{Services, WeeklyList};
use crate::end::End;
use crate::fields::FileFault;
use crate::parts::{feed_rest, feed_rides};
use crate::{FeedFault, FeedFile, Tables, What};
use lc_io::Folder;
use std::alloc::Global;

/// The tables of the feed in this subdirectory of the directory.
///
/// The files are read in the order stops.txt, trips.txt, stop_times.txt, calendar.txt, calendar_dates.txt,
/// frequencies.txt, transfers.txt, and each is tested before the next is asked for. The first that is not as it has to be
/// ends the reading. The first three have to be there, and one of the next two. Where both are absent, calendar.txt is
/// named. Stop times and frequencies are tested against all trips of trips.txt. Of n rows: n log n.
pub fn read_feed<F: Folder>(alloc: Global, folder: &mut F, feed: &str) -> Result<Tables, FeedFault>
    ensures ends { EndsSo (F.seen folder.old) (F.seen folder.new) feed.now result }

    // The directory has the same files, and its counts have not fallen.
    ensures counts { Keeps (F.seen folder.old) (F.seen folder.new) }
{
    let before = folder.faults();
    let read = feed_tables(alloc, folder, feed);
    let after = folder.faults();
    match read {
        Ok(tables) => Ok(tables),
        Err(end) => Err(fault_of(end, before, after)),
    }
}

// The tables of the feed, one file after the other.
fn feed_tables<F: Folder>(alloc: Global, folder: &mut F, feed: &str) -> Result<Tables, End>
    ensures { IsWalk (F.seen folder.old) (F.seen folder.new) feed.now result }
{
    let rides = feed_rides(alloc, folder, feed)?;
    let rest = feed_rest(alloc, folder, feed, &rides.stops, &rides.all_trips)?;
    Ok(Tables {
        stops: rides.stops,
        trips: rides.timed.trips,
        stop_times: rides.timed.times,
        services: Services {
            weekly: weekly_rows(alloc, rest.services.weekly),
            dates: rest.services.dates,
        },
        frequencies: rest.extras.frequencies,
        transfers: rest.extras.transfers,
        left_out: rides.timed.left_out,
    })
}

// The rows of calendar.txt, none where it is absent.
fn weekly_rows(alloc: Global, weekly: Option<WeeklyList>) -> WeeklyList
    ensures { result ≡ unwrap_or weekly [] }
{
    match weekly {
        Some(weekly) => weekly,
        None => WeeklyList::from_list(Vec::new(alloc)),
    }
}

fn fault_of(end: End, before: u64, after: u64) -> FeedFault
    requires { IsReportable end }
    ensures { IsFaultOf end before after result }
{
    match end {
        End::Wrong(file, FileFault::Broken { rule, row }) => FeedFault::Broken { rule, file, row },
        End::Wrong(file, FileFault::TooMany { count }) => match what_of(file) {
            Some(what) => FeedFault::TooLarge { what, count },
            None => unreachable!(),
        },
        End::Wrong(_, FileFault::NoMemory) => unreachable!(),
        End::Failed => FeedFault::Folder { before, after },
        End::NoMemory => FeedFault::NoMemory,
    }
}

// What a file has too many rows of, where their number has a limit.
fn what_of(file: FeedFile) -> Option<What>
    ensures { result ≡ said_what file }
{
    match file {
        FeedFile::Stops => Some(What::Stops),
        FeedFile::Trips => Some(What::Trips),
        FeedFile::StopTimes => Some(What::StopTimes),
        _ => None,
    }
}
