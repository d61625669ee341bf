ghost use Rattle.std.specs.Prelude.{◌≡◌, All, IfErr, IfOk, IsFalse, length, ◌<◌, ◌+◌};
ghost use Rattle.cli_replay.specs.Inputs.Inputs.{ReadsFile};
ghost use Rattle.cli_replay.specs.Inputs.Script.{IsEventOf, IsRefusedAt, IsReplayRefused, IsScriptRefused, ReadsEvents, ReadsReplay, ReadsScript, StopsAt, IsMessageOf, IsNone, fault_since};
ghost use Rattle.gtfs_tables.specs.Reading.{Keeps};
ghost use Rattle.cli_replay.specs.ReplayLaws.Events.{TurnsAreOfClients};
ghost use Rattle.journey_text.specs.Script.{NamesNone, TurnsAreOfClients as AreOfClients};
ghost use Rattle.timetable.specs.Scope.{IsWindow};

use crate::inputs::Refusal;
use crate::inputs::message::test_message;
use crate::{Event, Message};
use journey_text::{Record, Script, ScriptFault, read_script};
use lc_io::{File, Folder, FolderFail};
use lc_model::{Bytes, NoMemory, PlainData, Text};
use std::alloc::Global;
use timetable::{LoadFault, Scope, Timetable, load};
use version_store::MessageFault;

/// What a replay is played from: the timetable of the feed, and its event sequence.
#[derive(Drop)]
pub struct ReplayInputs {
    pub made: Timetable,
    pub events: Vec<Event>,
}

/// Reads a script, loads the timetable, and then reads and tests the files of the messages that the script names, in its order.
pub fn read_replay<F: Folder>(
    alloc: Global,
    folder: &mut F,
    scope: &Scope,
    script: Text,
) -> Result<ReplayInputs, Refusal>
    requires { IsWindow scope.now.first scope.now.days }
    ensures read { IfOk result (λ inputs. ReadsReplay scope.now script (F.seen folder.old) (F.seen folder.new) inputs.made inputs.events.items) }
    ensures turns { IfOk result (λ inputs. TurnsAreOfClients inputs.events.items) }
    ensures refused { IfErr result (IsReplayRefused scope.now script (F.seen folder.old) (F.seen folder.new)) }
    ensures kept { Keeps (F.seen folder.old) (F.seen folder.new) }
{
    let before = folder.faults();
    match read_records(alloc, folder, before, &script, true) {
        Ok(records) => match load(alloc, folder, scope) {
            Ok(made) => match read_events(alloc, folder, before, &records) {
                Ok(events) => Ok(ReplayInputs { made, events }),
                Err(refusal) => Err(refusal),
            },
            Err(fault) => Err(Refusal::Load(fault_from(before, fault))),
        },
        Err(refusal) => Err(refusal),
    }
}

/// The fault of a loading, where the directory's count of faults was this at the start.
fn fault_from(before: u64, fault: LoadFault) -> LoadFault
    ensures { result ≡ fault_since before fault }
{
    match fault {
        LoadFault::Folder { before: _, after } => LoadFault::Folder { before, after },
        fault => fault,
    }
}

/// Reads the script, which may name messages or not, where the directory's count of faults was this before.
pub(crate) fn read_records<F: Folder>(
    alloc: Global,
    folder: &mut F,
    before: u64,
    name: &Text,
    updates: bool,
) -> Result<Script, Refusal>
    requires { before ≡ (F.seen folder.old).faults }
    ensures read { IfOk result (ReadsScript updates name.now (F.seen folder.old) (F.seen folder.new)) }
    ensures turns { IfOk result AreOfClients }
    ensures messages { IsFalse updates → IfOk result (All NamesNone) }
    ensures refused { IfErr result (IsScriptRefused updates name.now (F.seen folder.old) (F.seen folder.new)) }
    ensures kept { Keeps (F.seen folder.old) (F.seen folder.new) }
{
    match folder.read(alloc, name.as_str()) {
        Ok(bytes) => match read_script(alloc, bytes.as_slice(), updates) {
            Ok(script) => Ok(script),
            Err(ScriptFault::Wrong { row }) => Err(Refusal::Script { row }),
            Err(ScriptFault::NoMemory) => Err(Refusal::from(NoMemory)),
        },
        Err(FolderFail::Absent) => Err(Refusal::Script { row: 0 }),
        Err(FolderFail::Failed) => {
            let after = folder.faults();
            Err(Refusal::Folder { before, after })
        }
        Err(FolderFail::NoMemory) => Err(Refusal::from(NoMemory)),
    }
}

/// The events of a script, with the files of its messages, where the directory's count of faults was this at the start.
fn read_events<F: Folder>(
    alloc: Global,
    folder: &mut F,
    before: u64,
    script: &Script,
) -> Result<Vec<Event>, Refusal>
    ensures read { IfOk result (λ events. ReadsEvents script.now (F.seen folder.old) (F.seen folder.new) events.items) }
    ensures stops { IfErr result (StopsAt before script.now (F.seen folder.old) (F.seen folder.new)) }
    ensures kept { Keeps (F.seen folder.old) (F.seen folder.new) }
{
    let records = script.as_slice();
    let mut events = Vec::new(alloc);
    'records: for place in 0..records.len() {
        let row = place as u64 + 1;
        match event_of(alloc, folder, before, row, &records[place]) {
            Ok(event) => match events.push(event) {
                Ok(()) => {}
                Err(_) => return Err(Refusal::from(NoMemory)),
            },
            Err(refusal) => return Err(refusal),
        }
    }
    Ok(events)
}

/// The event of the record in this row.
fn event_of<F: Folder>(
    alloc: Global,
    folder: &mut F,
    before: u64,
    row: u64,
    said: &Record,
) -> Result<Event, Refusal>
    ensures event { IfOk result (IsEventOf said.now (F.seen folder.old) (F.seen folder.new)) }
    ensures refused { IfErr result (IsRefusedAt before row said.now (F.seen folder.old) (F.seen folder.new)) }
    ensures kept { Keeps (F.seen folder.old) (F.seen folder.new) }
{
    match said {
        Record::Ask(query) => Ok(Event::Ask(query.copy(alloc)?)),
        Record::Update(name) => {
            let name = name.copy(alloc)?;
            match folder.read(alloc, name.as_str()) {
                Ok(bytes) => message_event(alloc, name, bytes),
                Err(FolderFail::Absent) => Err(Refusal::Script { row }),
                Err(FolderFail::Failed) => {
                    let after = folder.faults();
                    Err(Refusal::Folder { before, after })
                }
                Err(FolderFail::NoMemory) => Err(Refusal::from(NoMemory)),
            }
        }
        Record::Turn(client) => Ok(Event::Turn(*client)),
    }
}

/// The bytes of the file of this name as a message, if they are one.
fn message_event(alloc: Global, name: Text, bytes: Vec<u8>) -> Result<Event, Refusal>
    ensures event { IfOk result (IsMessageOf name bytes.items) }
    ensures refused { IfErr result (IsNone name bytes.items) }
{
    match test_message(alloc, bytes.as_slice()) {
        Ok(()) => Ok(Event::Message(Message {
            file: File {
                name,
                bytes: Bytes::from_list(bytes),
            },
        })),
        Err(MessageFault::TooLong { bytes }) => Err(Refusal::LongUpdate { bytes }),
        Err(MessageFault::Broken(fault)) => Err(Refusal::BrokenUpdate { name, fault }),
        Err(MessageFault::NoMemory) => Err(Refusal::from(NoMemory)),
    }
}
