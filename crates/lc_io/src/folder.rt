ghost use Rattle.std.specs.Prelude.{◌≡◌, Some, None, IfOk, IfSome, IsErrOf};
ghost use Rattle.lc_io.specs.Counts.{HasCause};
ghost use Rattle.lc_io.specs.Folder.{FolderSeen, TellsAsked, bytes_named};
ghost use Rattle.lc_io.specs.declared.folder.FolderFail.TheVariants.{Failed, Absent};

use std::alloc::Global;

/// Why a directory gave no bytes.
#[derive(Clone, Copy, PartialEq, Eq)]
pub enum FolderFail {
    /// The file could not be read.
    Failed,
    /// There is no file of this name.
    Absent,
    NoMemory,
}

/// Where files are read from.
pub trait Folder {
    /// What is known of the directory. The files never change.
    ghost seen: { Self → FolderSeen };

    /// The bytes of the file of this name.
    fn read(&mut self, alloc: Global, name: &str) -> Result<Vec<u8>, FolderFail>
        ensures bytes { IfOk result (λ bytes. IfSome (seen self.old).files (λ files. bytes_named files name.now ≡ Some bytes.items)) }
        ensures absent { IsErrOf result Absent → IfSome (seen self.old).files (λ files. bytes_named files name.now ≡ None) }
        ensures unchanged { (seen self.new).files ≡ (seen self.old).files }
        ensures faults { HasCause (seen self.old).faults (seen self.new).faults (IsErrOf result Failed) }
        ensures absences { HasCause (seen self.old).absences (seen self.new).absences (IsErrOf result Absent) }
        ensures asked { TellsAsked (seen self.old).asked (seen self.new).asked name.now result };

    /// How often a read has failed.
    fn faults(&self) -> u64
        ensures { result ≡ (seen self.now).faults };
}
