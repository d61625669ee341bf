ghost use Rattle.std.specs.Prelude.{◌≡◌, ◌↔◌, None};
ghost use Rattle.std.specs.declared.io.ErrorKind.TheVariants.{NotFound, OutOfMemory};
ghost use Rattle.lc_io.specs.declared.folder.FolderFail.TheVariants.{Absent, NoMemory as WantOfMemory};

use crate::bounded::read_at_most;
use lc_io::{Folder, FolderFail};
use std::alloc::Global;
use std::fs::File;
use std::io::{self, ErrorKind};
use std::rt::Files;

/// The largest file that is read, in bytes.
const MOST_BYTES: usize = 1 << 30;

/// The files of the system, by their paths. It records nothing of what they hold.
#[derive(Drop)]
pub struct DirFolder<'a, R: Files + AllocGlobal> {
    rt: &'a R,
    faults: u64,
    absences: u64,
}

impl<'a, R: Files + AllocGlobal> DirFolder<'a, R> {
    /// The directory, with its counts at 0.
    pub fn new(rt: &'a R) -> DirFolder<'a, R>
        ensures faults { result.faults ≡ 0 }
        ensures absences { result.absences ≡ 0 }
    {
        DirFolder {
            rt,
            faults: 0,
            absences: 0,
        }
    }
}

impl<R: Files + AllocGlobal> DirFolder<'_, R> {
    /// The bytes of a file. A name with a byte 0 is the path of no file, and a file above 1 GiB is a fault.
    fn bytes_of(&self, name: &str) -> Result<Vec<u8>, FolderFail> {
        if name.as_bytes().contains(&0) {
            return Err(FolderFail::Absent);
        }
        match read_file(self.rt, name) {
            Ok(bytes) => Ok(bytes),
            Err(e) => Err(fail_of(e.kind())),
        }
    }
}

impl<R: Files + AllocGlobal> Folder for DirFolder<'_, R> {
    ghost seen = { λ f. record { files = None; faults = f.faults; absences = f.absences; asked = None } };

    fn read(&mut self, _: Global, name: &str) -> Result<Vec<u8>, FolderFail> {
        let read = self.bytes_of(name);
        match read {
            Err(FolderFail::Failed) => self.faults = self.faults.saturating_add(1),
            Err(FolderFail::Absent) => self.absences = self.absences.saturating_add(1),
            Ok(_) | Err(FolderFail::NoMemory) => {}
        }
        read
    }

    fn faults(&self) -> u64 {
        self.faults
    }
}

/// The bytes of the file at a path.
fn read_file<R: Files + AllocGlobal>(rt: &R, path: &str) -> io::Result<Vec<u8>> {
    let mut bytes = Vec::new(rt.alloc());
    read_at_most(File::open(rt, path)?, MOST_BYTES, &mut bytes)?;
    Ok(bytes)
}

/// Why a file could not be read.
fn fail_of(kind: ErrorKind) -> FolderFail
    ensures absent { (result ≡ Absent) ↔ (kind ≡ NotFound) }
    ensures no_memory { (result ≡ WantOfMemory) ↔ (kind ≡ OutOfMemory) }
{
    match kind {
        ErrorKind::NotFound => FolderFail::Absent,
        ErrorKind::OutOfMemory => FolderFail::NoMemory,
        _ => FolderFail::Failed,
    }
}
