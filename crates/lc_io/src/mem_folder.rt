ghost use Rattle.std.specs.Prelude.{◌≡◌, ◌↔◌, ◌++◌, ◌∷◌, [], Some, None, Ok, Err, IfOk, IfSome, OnOk, OnErr, MatchResult, IsErrOf, Contains, find, nat_eq};
ghost use Rattle.std.specs.Option.{option_copied};
ghost use lib.Pointwise.{pointwise};
ghost use Rattle.lc_io.specs.Counts.{Counts, HasCause, one_more};
ghost use Rattle.lc_io.specs.Folder.{TellsAsked, bytes_named};
ghost use Rattle.lc_io.specs.MemFolder.{MemFolderState};
ghost use Rattle.lc_io.specs.declared.folder.FolderFail.TheVariants.{Failed, Absent};

use crate::{File, Folder, FolderFail};
use lc_model::{NoMemory, Text};
use std::alloc::Global;
use std::marker::Model;

/// The file of this name: of two files of one name the first. Linear in the files.
fn file_named<'a>(files: &'a [File], name: &str) -> Option<&'a File>
    ensures { option_copied result ≡ find (λ f. pointwise nat_eq f.name name.now) files.now }
{
    files.iter().find(|file| file.name.as_str() == name)
}

/// The bytes of the file of this name.
pub(crate) fn bytes_of(alloc: Global, files: &[File], name: &str) -> Result<Vec<u8>, FolderFail>
    ensures bytes { IfOk result (λ bytes. bytes_named files.now name.now ≡ Some bytes.items) }
    ensures absent { IsErrOf result FolderFail.Absent → bytes_named files.now name.now ≡ None }
    ensures no_fault { IsErrOf result FolderFail.Failed → ⊥ }
{
    match file_named(files, name) {
        None => Err(FolderFail::Absent),
        Some(file) => match file.bytes.as_slice().to_vec(alloc) {
            Ok(bytes) => Ok(bytes),
            Err(_) => Err(FolderFail::NoMemory),
        },
    }
}

/// Adds the name to those asked for. Where memory runs out they stay as they were.
pub(crate) fn add_asked(alloc: Global, asked: &mut Vec<Text>, name: &str) -> Result<(), NoMemory>
    ensures ok { OnOk result (asked.new.items ≡ asked.old.items ++ name.now ∷ []) }
    ensures err { OnErr result (asked.new.items ≡ asked.old.items) }
{
    asked.push(Text::from_string(String::from_str(alloc, name)?))?;
    Ok(())
}

/// A directory in memory, some of whose reads fail.
#[derive(Drop)]
pub struct MemFolder {
    files: Vec<File>,
    fails: Vec<u64>,
    reads: u64,
    faults: u64,
    absences: u64,
    asked: Vec<Text>,
}

impl Model for MemFolder {
    ghost use Rattle.lc_io.specs.MemFolder.{MemFolderState};

    ghost Value = { MemFolderState };

    ghost view = { λ f. record {
      files = f.files.items;
      fails = f.fails.items;
      reads = f.reads;
      faults = f.faults;
      absences = f.absences;
      asked = f.asked.items;
    } };
}

impl MemFolder {
    /// A directory of these files, in which the reads of these numbers, from 1, fail.
    pub fn new(alloc: Global, files: Vec<File>, fails: Vec<u64>) -> Result<MemFolder, NoMemory>
        ensures { IfOk result (λ folder. folder ≡ record {
          files = files.items;
          fails = fails.items;
          reads = 0;
          faults = 0;
          absences = 0;
          asked = [];
        }) }
    {
        Ok(MemFolder {
            files,
            fails,
            reads: 0,
            faults: 0,
            absences: 0,
            asked: Vec::new(alloc),
        })
    }

    /// The names asked for, in their order.
    pub fn asked(&self) -> &[Text]
        ensures { result.now ≡ self.now.asked }
    {
        self.asked.as_slice()
    }
}

impl Folder for MemFolder {
    ghost seen = { λ f. record { files = Some f.files; faults = f.faults; absences = f.absences; asked = Some f.asked } };

    fn read(&mut self, alloc: Global, name: &str) -> Result<Vec<u8>, FolderFail>
        ensures bytes { IfOk result (λ bytes. bytes_named self.old.files name.now ≡ Some bytes.items) }
        ensures absent { IsErrOf result Absent → bytes_named self.old.files name.now ≡ None }
        ensures unchanged { self.new.files ≡ self.old.files }
        ensures faults { HasCause self.old.faults self.new.faults (IsErrOf result Failed) }
        ensures absences { HasCause self.old.absences self.new.absences (IsErrOf result Absent) }
        ensures asked { TellsAsked (Some self.old.asked) (Some self.new.asked) name.now result }
        // A read is counted even where there is no memory for its name; a listed one fails once its name is recorded.
        ensures reads { self.new ≡ record self.old {
          reads = one_more self.old.reads;
          faults = self.new.faults;
          absences = self.new.absences;
          asked = self.new.asked;
        } }
        ensures listed { IsErrOf result Failed ↔
            (Contains self.old.fails (one_more self.old.reads) × (self.new.asked ≡ self.old.asked ++ name.now ∷ [])) }
        ensures each_fault { Counts self.old.faults self.new.faults (IsErrOf result Failed) }
        ensures each_absence { Counts self.old.absences self.new.absences (IsErrOf result Absent) }
    {
        self.reads = self.reads.saturating_add(1);
        if add_asked(alloc, &mut self.asked, name).is_err() {
            return Err(FolderFail::NoMemory);
        }
        if self.fails.contains(&self.reads) {
            self.faults = self.faults.saturating_add(1);
            return Err(FolderFail::Failed);
        }
        let bytes = bytes_of(alloc, &self.files, name);
        if matches!(bytes, Err(FolderFail::Absent)) {
            self.absences = self.absences.saturating_add(1);
        }
        bytes
    }

    fn faults(&self) -> u64 {
        self.faults
    }
}
