ghost use Rattle.std.specs.Prelude.{◌≡◌, ◌⊎◌};
ghost use Rattle.gtfs_tables.specs.Reading.{Keeps};
ghost use Rattle.timetable.specs.Loading.{IsReportedAs, LoadsSo};
ghost use Rattle.timetable.specs.Scope.{IsWindow};
ghost use Rattle.timetable.specs.declared.fault.LoadFault.TheVariants.{Broken, NoMemory as OutOfMemory};

use crate::made::timetable_of;
use crate::zone::find_zone;
use crate::zone_end::ZoneEnd;
use crate::{LoadFault, Scope, Timetable};
use gtfs_tables::{FeedFault, read_feed};
use lc_io::Folder;
use lc_model::{NoMemory, PlainData, Text};
use std::alloc::Global;

/// The rule that a feed breaks whose zone's word says no zone.
const NO_ZONE: u8 = 15;

/// The timetable of the feed in the scope.
///
/// The word of the zone comes first, with the file that it names. Then come the files of the feed, one after the other. Then come
/// the limits of 4,000,000 connections and of 1,000,000 changes. Of n rows, calls and changes: n log n.
pub fn load<F: Folder>(alloc: Global, folder: &mut F, scope: &Scope) -> Result<Timetable, LoadFault>
    requires { IsWindow scope.now.first scope.now.days }
    ensures ends { LoadsSo scope.now (F.seen folder.old) (F.seen folder.new) result }

    // The directory has the same files, and its counts have not fallen.
    ensures counts { Keeps (F.seen folder.old) (F.seen folder.new) }
{
    let start = folder.faults();
    match find_zone(alloc, folder, scope.zone.as_str()) {
        Ok(zone) => match read_feed(alloc, folder, scope.feed.as_str()) {
            Ok(tables) => timetable_of(alloc, scope, zone, tables),
            Err(fault) => Err(feed_fault(alloc, fault, start)),
        },
        Err(ZoneEnd::Wrong) => Err(no_zone(alloc, &scope.zone)),
        Err(ZoneEnd::Failed) => {
            let after = folder.faults();
            Err(LoadFault::Folder {
                before: start,
                after,
            })
        }
        Err(ZoneEnd::NoMemory) => Err(LoadFault::NoMemory),
    }
}

// The fault of a feed as one of its timetable. The count of the directory's faults was `before` at the start.
fn feed_fault(alloc: Global, fault: FeedFault, before: u64) -> LoadFault
    ensures { IsReportedAs fault before result }
{
    match fault {
        FeedFault::Broken { rule, file, row } => match String::from_str(alloc, file.name()) {
            Ok(name) => LoadFault::Broken {
                rule,
                file: Text::from_string(name),
                row,
            },
            Err(_) => LoadFault::NoMemory,
        },
        FeedFault::TooLarge { what, count } => LoadFault::TooLarge { what, count },
        FeedFault::Folder { after, .. } => LoadFault::Folder { before, after },
        FeedFault::NoMemory => LoadFault::NoMemory,
    }
}

// The fault of a word that says no zone.
fn no_zone(alloc: Global, word: &Text) -> LoadFault
    ensures { (result ≡ Broken NO_ZONE word.now 0) ⊎ (result ≡ OutOfMemory) }
{
    match word.copy(alloc) {
        Ok(file) => LoadFault::Broken {
            rule: NO_ZONE,
            file,
            row: 0,
        },
        Err(NoMemory) => LoadFault::NoMemory,
    }
}
