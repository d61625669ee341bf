ghost use Rattle.std.specs.Prelude.{◌≡◌};
ghost use Rattle.std.specs.Option.{option_copied};
ghost use Rattle.gtfs_tables.specs.Reading.{Keeps};
ghost use Rattle.service_days.specs.ZoneWord.{file_named};
ghost use Rattle.timetable.specs.Zone.{EndsAtLook, EndsAtZone};

use crate::zone_end::ZoneEnd;
use lc_io::{Folder, FolderFail};
use lc_model::Bytes;
use lc_time::Zone;
use service_days::{ZoneFault, read_zone};
use std::alloc::Global;

/// The zone that the word says, with the file that it names.
pub(crate) fn find_zone<F: Folder>(
    alloc: Global,
    folder: &mut F,
    word: &str,
) -> Result<Zone, ZoneEnd>
    ensures ends { EndsAtZone (F.seen folder.old) (F.seen folder.new) word.now result }
    ensures kept { Keeps (F.seen folder.old) (F.seen folder.new) }
{
    match look_up(alloc, folder, word) {
        Ok(file) => match read_zone(alloc, word.as_bytes(), bytes_of(&file)) {
            Ok(zone) => Ok(zone),
            Err(ZoneFault::Wrong) => Err(ZoneEnd::Wrong),
            Err(ZoneFault::NoMemory) => Err(ZoneEnd::NoMemory),
        },
        Err(end) => Err(end),
    }
}

fn bytes_of(file: &Option<Bytes>) -> Option<&[u8]>
    ensures { option_copied result ≡ file.now }
{
    match file {
        Some(bytes) => Some(bytes.as_slice()),
        None => None,
    }
}

// The bytes of the file that the word names; none where it names none, or the file is absent.
fn look_up<F: Folder>(alloc: Global, folder: &mut F, word: &str) -> Result<Option<Bytes>, ZoneEnd>
    ensures ends { EndsAtLook (F.seen folder.old) (F.seen folder.new) word.now result }
    ensures kept { Keeps (F.seen folder.old) (F.seen folder.new) }
{
    let Some(name) = named_file(word) else {
        return Ok(None);
    };
    match folder.read(alloc, name) {
        Ok(bytes) => Ok(Some(Bytes::from_list(bytes))),
        Err(FolderFail::Absent) => Ok(None),
        Err(FolderFail::Failed) => Err(ZoneEnd::Failed),
        Err(FolderFail::NoMemory) => Err(ZoneEnd::NoMemory),
    }
}

// The name of the file that the word names.
fn named_file(word: &str) -> Option<&str>
    ensures { option_copied result ≡ file_named word.now }
{
    word.strip_prefix("file:")
}
