ghost use Rattle.std.specs.Prelude.{◌≡◌, ◌++◌, ◌∷◌, [], All, IfErr, IfOk, OnOk, false};
ghost use Rattle.cli_replay.specs.Inputs.Plan.{AddsSaid, IsNoMessage, ReadsPlan, SayEvents, SaysEvent};
ghost use Rattle.cli_replay.specs.Inputs.Script.{IsScriptRefused};
ghost use Rattle.gtfs_tables.specs.Reading.{Keeps};
ghost use Rattle.cli_replay.specs.ReplayLaws.Events.{TurnsAreOfClients};
ghost use Rattle.journey_text.specs.Script.{NamesNone};

use crate::Event;
use crate::inputs::Refusal;
use crate::inputs::script::read_records;
use journey_text::{Record, Script};
use lc_io::Folder;
use lc_model::{NoMemory, PlainData, Text};
use std::alloc::Global;

/// Reads a script of questions and turns, in which a message is no record. Linear in the script.
pub fn read_plan<F: Folder>(
    alloc: Global,
    folder: &mut F,
    asks: Text,
) -> Result<Vec<Event>, Refusal>
    ensures read { IfOk result (λ events. ReadsPlan asks (F.seen folder.old) (F.seen folder.new) events.items) }
    ensures no_messages { IfOk result (λ events. All IsNoMessage events.items) }
    ensures turns { IfOk result (λ events. TurnsAreOfClients events.items) }
    ensures refused { IfErr result (IsScriptRefused false asks (F.seen folder.old) (F.seen folder.new)) }
    ensures kept { Keeps (F.seen folder.old) (F.seen folder.new) }
{
    let before = folder.faults();
    match read_records(alloc, folder, before, &asks, false) {
        Ok(script) => Ok(events_said(alloc, &script)?),
        Err(refusal) => Err(refusal),
    }
}

/// The events that the records of a script say, none of which names a message.
fn events_said(alloc: Global, script: &Script) -> Result<Vec<Event>, NoMemory>
    requires { All NamesNone script.now }
    ensures { IfOk result (λ events. SayEvents script.now events.items) }
{
    let records = script.as_slice();
    let mut events = Vec::new(alloc);
    'records: for place in 0..records.len() {
        push_said(alloc, &records[place], &mut events)?;
    }
    Ok(events)
}

/// Adds the event that a record says, which names no message.
fn push_said(alloc: Global, said: &Record, events: &mut Vec<Event>) -> Result<(), NoMemory>
    requires { NamesNone said.now }
    ensures { OnOk result (AddsSaid said.now events.old.items events.new.items) }
{
    let event = event_said(alloc, said)?;
    events.push(event)?;
    Ok(())
}

/// The event that a record says, which names no message.
fn event_said(alloc: Global, said: &Record) -> Result<Event, NoMemory>
    requires { NamesNone said.now }
    ensures { IfOk result (SaysEvent said.now) }
{
    match said {
        Record::Ask(query) => Ok(Event::Ask(query.copy(alloc)?)),
        Record::Update(_) => unreachable!(),
        Record::Turn(client) => Ok(Event::Turn(*client)),
    }
}
