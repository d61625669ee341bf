ghost use Rattle.std.specs.Prelude.{◌≡◌, IfOk, option_map};
ghost use Rattle.std.specs.String.{string_bytes};
ghost use Rattle.gtfs_tables.specs.Files.{path_of};
ghost use Rattle.gtfs_tables.specs.Steps.{IsStep};

use crate::FeedFile;
use crate::end::End;
use lc_io::{Folder, FolderFail};
use lc_model::NoMemory;
use std::alloc::Global;

/// The bytes of a file of the feed, none where it is absent.
pub(crate) fn look<F: Folder>(
    alloc: Global,
    folder: &mut F,
    feed: &str,
    file: FeedFile,
) -> Result<Option<Vec<u8>>, End>
    ensures { IsStep (F.seen folder.old) (F.seen folder.new) feed.now file
        (λ found bytes. found ≡ option_map (λ b. b.items) bytes)
        (λ _ _. ⊥)
        result }
{
    let path = path(alloc, feed, file)?;
    match folder.read(alloc, path.as_str()) {
        Ok(bytes) => Ok(Some(bytes)),
        Err(FolderFail::Absent) => Ok(None),
        Err(FolderFail::Failed) => Err(End::Failed),
        Err(FolderFail::NoMemory) => Err(End::NoMemory),
    }
}

// The name under which the directory has a file of the feed.
fn path(alloc: Global, feed: &str, file: FeedFile) -> Result<String, NoMemory>
    ensures { IfOk result (λ path. string_bytes path ≡ path_of feed.now file) }
{
    let mut path = String::from_str(alloc, feed)?;
    path.push_str("/")?;
    path.push_str(file.name())?;
    Ok(path)
}
