ghost use Rattle.std.specs.Prelude.{IfErr, IfOk};
ghost use Rattle.gtfs_tables.specs.Reading.{Keeps};
ghost use Rattle.cli_replay.specs.Inputs.Inputs.{EndsUpdate, IsRefusedFor, ReadsInputs};
ghost use Rattle.timetable.specs.Scope.{IsWindow};

use crate::inputs::Refusal;
use lc_io::{File, Folder, FolderFail};
use lc_model::{Bytes, NoMemory, Text};
use std::alloc::Global;
use timetable::{Scope, Timetable, load};

/// What a question is asked of: the timetable of its feed, and the file of a message, if there is one.
#[derive(Drop)]
pub struct Inputs {
    pub made: Timetable,
    pub file: Option<File>,
}

/// Loads the timetable, and then reads the file of the message, if there is one.
pub fn read_inputs<F: Folder>(
    alloc: Global,
    folder: &mut F,
    scope: &Scope,
    update: Option<Text>,
) -> Result<Inputs, Refusal>
    requires { IsWindow scope.now.first scope.now.days }
    ensures read { IfOk result (λ inputs. ReadsInputs scope.now update (F.seen folder.old) (F.seen folder.new) inputs.made inputs.file) }
    ensures refused { IfErr result (IsRefusedFor scope.now update (F.seen folder.old) (F.seen folder.new)) }
    ensures kept { Keeps (F.seen folder.old) (F.seen folder.new) }
{
    let before = folder.faults();
    match load(alloc, folder, scope) {
        Ok(made) => match read_update(alloc, folder, update) {
            Ok(file) => Ok(Inputs { made, file }),
            Err(FolderFail::Absent) => Err(Refusal::Script { row: 0 }),
            Err(FolderFail::Failed) => {
                let after = folder.faults();
                Err(Refusal::Folder { before, after })
            }
            Err(FolderFail::NoMemory) => Err(Refusal::from(NoMemory)),
        },
        Err(fault) => Err(Refusal::Load(fault)),
    }
}

/// Reads the file of the message, if there is one.
fn read_update<F: Folder>(
    alloc: Global,
    folder: &mut F,
    update: Option<Text>,
) -> Result<Option<File>, FolderFail>
    ensures ends { EndsUpdate update (F.seen folder.old) (F.seen folder.new) result }
    ensures kept { Keeps (F.seen folder.old) (F.seen folder.new) }
{
    match update {
        None => Ok(None),
        Some(name) => match folder.read(alloc, name.as_str()) {
            Ok(bytes) => Ok(Some(File {
                name,
                bytes: Bytes::from_list(bytes),
            })),
            Err(fail) => Err(fail),
        },
    }
}
