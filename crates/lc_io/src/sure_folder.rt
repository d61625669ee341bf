ghost use Rattle.std.specs.Prelude.{◌≡◌, [], Some, None, IfOk, IsErrOf};
ghost use Rattle.lc_io.specs.Counts.{Counts, HasCause};
ghost use Rattle.lc_io.specs.Folder.{TellsAsked, bytes_named};
ghost use Rattle.lc_io.specs.declared.folder.FolderFail.TheVariants.{Failed, Absent};

use crate::mem_folder::{add_asked, bytes_of};
use crate::{File, Folder, FolderFail};
use lc_model::{NoMemory, Text};
use std::alloc::Global;
use std::marker::Model;

/// A directory in memory, of which no read fails.
#[derive(Drop)]
pub struct SureFolder {
    files: Vec<File>,
    absences: u64,
    asked: Vec<Text>,
}

impl Model for SureFolder {
    ghost use Rattle.lc_io.specs.SureFolder.{SureFolderState};

    ghost Value = { SureFolderState };

    ghost view = { λ f. record { files = f.files.items; absences = f.absences; asked = f.asked.items } };
}

impl SureFolder {
    pub fn new(alloc: Global, files: Vec<File>) -> Result<SureFolder, NoMemory>
        ensures { IfOk result (λ folder. folder ≡ record { files = files.items; absences = 0; asked = [] }) }
    {
        Ok(SureFolder {
            files,
            absences: 0,
            asked: Vec::new(alloc),
        })
    }

    /// The names asked for, in their order.
    pub fn asked(&self) -> &[Text]
        ensures { result.now ≡ self.now.asked }
    {
        self.asked.as_slice()
    }
}

impl Folder for SureFolder {
    ghost seen = { λ f. record { files = Some f.files; faults = 0; absences = f.absences; asked = Some f.asked } };

    fn read(&mut self, alloc: Global, name: &str) -> Result<Vec<u8>, FolderFail>
        ensures bytes { IfOk result (λ bytes. bytes_named self.old.files name.now ≡ Some bytes.items) }
        ensures absent { IsErrOf result Absent → bytes_named self.old.files name.now ≡ None }
        ensures unchanged { self.new.files ≡ self.old.files }
        ensures never { IsErrOf result Failed → ⊥ }
        ensures faults { HasCause 0 0 (IsErrOf result Failed) }
        ensures absences { HasCause self.old.absences self.new.absences (IsErrOf result Absent) }
        ensures asked { TellsAsked (Some self.old.asked) (Some self.new.asked) name.now result }
        ensures each_absence { Counts self.old.absences self.new.absences (IsErrOf result Absent) }
    {
        if add_asked(alloc, &mut self.asked, name).is_err() {
            return Err(FolderFail::NoMemory);
        }
        let bytes = bytes_of(alloc, &self.files, name);
        if matches!(bytes, Err(FolderFail::Absent)) {
            self.absences = self.absences.saturating_add(1);
        }
        bytes
    }

    fn faults(&self) -> u64 {
        0
    }
}
