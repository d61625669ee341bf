ghost use Rattle.std.specs.Prelude.{◌≡◌, IfNone, IfOk, IfSome};
ghost use Rattle.cli_ask.specs.Admission.{IsFaulty};
ghost use Rattle.cli_replay.specs.Inputs.Inputs.{IsMessageRefusal};
ghost use Rattle.cli_replay.specs.declared.inputs.refusal.Refusal.TheVariants.{Load};
ghost use Rattle.timetable.specs.declared.fault.LoadFault.TheVariants.{NoMemory as OutOfMemory};
ghost use Rattle.version_store.specs.declared.message_fault.MessageFault.TheVariants as messages;
ghost use Rattle.lc_cli.specs.Refusal.{HasMadeLine, IsRefusalEnd, error_line_of, feed_line_of, large_line_of, script_line_of, status_of, update_line_of};
ghost use Rattle.cli_serve.specs.Written.{SinkNeverFell};
ghost use Rattle.lc_cli.specs.Writing.{Said};

use crate::status::Status;
use cli_replay::Refusal;
use gtfs_tables::What;
use lc_io::{File, Sink, SinkFail, put_all};
use lc_model::NoMemory;
use std::alloc::Global;
use timetable::LoadFault;
use trip_updates::RtFault;
use version_store::MessageFault;

pub(crate) const NO_MEMORY: &[u8] = b"error no memory\n";

/// Says the refusal in one line, which is tried once. It ends with its status, whatever becomes of the line, or out of memory
/// where there is none to make the line.
pub fn refuse<S: Sink>(alloc: Global, refusal: Refusal, out: &mut S) -> Status
    ensures end { IsRefusalEnd refusal (S.seen out.old) (S.seen out.new) result }
    ensures kept { SinkNeverFell (S.seen out.old) (S.seen out.new) }
{
    match fixed_line(&refusal) {
        Some(line) => {
            say(line, out);
            status(refusal)
        }
        None => match made_line(alloc, &refusal) {
            Ok(line) => {
                say(line.as_slice(), out);
                status(refusal)
            }
            Err(NoMemory) => {
                say(NO_MEMORY, out);
                Status::NoMemory
            }
        },
    }
}

/// The line of a refusal that names nothing.
fn fixed_line(refusal: &Refusal) -> Option<&'static [u8]>
    ensures line { IfSome result (λ line. line.now ≡ error_line_of refusal.now) }
    ensures made { IfNone result (HasMadeLine refusal.now) }
{
    match refusal {
        Refusal::Usage => Some(b"error usage\n"),
        Refusal::Load(LoadFault::Folder { .. }) | Refusal::Folder { .. } => Some(b"error folder\n"),
        Refusal::Load(LoadFault::NoMemory) => Some(NO_MEMORY),
        Refusal::Load(LoadFault::Broken { .. })
        | Refusal::Load(LoadFault::TooLarge { .. })
        | Refusal::Script { .. }
        | Refusal::LongUpdate { .. }
        | Refusal::BrokenUpdate { .. } => None,
    }
}

/// The line of a refusal that names what it is about.
fn made_line(alloc: Global, refusal: &Refusal) -> Result<Vec<u8>, NoMemory>
    requires { HasMadeLine refusal.now }
    ensures { IfOk result (λ line. line.items ≡ error_line_of refusal.now) }
{
    match refusal {
        Refusal::Load(LoadFault::Broken { rule, file, row }) => {
            feed_line(alloc, *rule, file.as_str(), *row)
        }
        Refusal::Load(LoadFault::TooLarge { what, count }) => large_line(alloc, *what, *count),
        Refusal::Script { row } => script_line(alloc, *row),
        Refusal::LongUpdate { bytes } => large_line(alloc, What::Update, *bytes),
        Refusal::BrokenUpdate { name, fault } => update_line(alloc, name.as_str(), *fault),
        _ => unreachable!(),
    }
}

/// The status of a refusal.
fn status(refusal: Refusal) -> Status
    ensures { result ≡ status_of refusal }
{
    match refusal {
        Refusal::Usage => Status::Usage,
        Refusal::Load(LoadFault::Broken { rule, file, row }) => {
            Status::FeedBroken { rule, file, row }
        }
        Refusal::Load(LoadFault::TooLarge { what, count }) => Status::TooLarge { what, count },
        Refusal::Load(LoadFault::Folder { before, after }) => Status::FolderFault { before, after },
        Refusal::Load(LoadFault::NoMemory) => Status::NoMemory,
        Refusal::Script { row } => Status::ScriptWrong { row },
        Refusal::Folder { before, after } => Status::FolderFault { before, after },
        Refusal::LongUpdate { bytes } => Status::TooLarge {
            what: What::Update,
            count: bytes,
        },
        Refusal::BrokenUpdate { name, fault } => Status::UpdateBroken { name, fault },
    }
}

/// Tries the line once.
pub(crate) fn say<S: Sink>(line: &[u8], out: &mut S)
    ensures said { Said (S.seen out.old) (S.seen out.new) line.now }
    ensures kept { SinkNeverFell (S.seen out.old) (S.seen out.new) }
{
    match put_all(out, line) {
        Ok(()) | Err(SinkFail::Failed) | Err(SinkFail::NoMemory) => {}
    }
}

/// The line that names the rule, the file and the row.
fn feed_line(alloc: Global, rule: u8, file: &str, row: u64) -> Result<Vec<u8>, NoMemory>
    ensures { IfOk result (λ line. line.items ≡ feed_line_of rule file.now row) }
{
    let line = format!(in alloc; "error feed F{rule} {file} row {row}\n")?;
    Ok(line.into_bytes())
}

/// The line that names what there is too much of, and how much.
fn large_line(alloc: Global, what: What, count: u64) -> Result<Vec<u8>, NoMemory>
    ensures { IfOk result (λ line. line.items ≡ large_line_of what count) }
{
    let line = format!(in alloc; "error too large {what} {count}\n")?;
    Ok(line.into_bytes())
}

/// The line that names the row of a script.
fn script_line(alloc: Global, row: u64) -> Result<Vec<u8>, NoMemory>
    ensures { IfOk result (λ line. line.items ≡ script_line_of row) }
{
    let line = format!(in alloc; "error script row {row}\n")?;
    Ok(line.into_bytes())
}

/// The line that names the file that is no message, and the fault in it.
fn update_line(alloc: Global, name: &str, fault: RtFault) -> Result<Vec<u8>, NoMemory>
    ensures { IfOk result (λ line. line.items ≡ update_line_of name.now fault) }
{
    let line = format!(in alloc; "error update {name} {fault}\n")?;
    Ok(line.into_bytes())
}

/// Why a file is no message.
pub(crate) fn message_refusal(fault: MessageFault, file: Option<File>) -> Refusal
    requires { IsFaulty file fault }
    ensures refusal { IsMessageRefusal file result }
    ensures memory { fault ≡ messages.NoMemory → result ≡ Load OutOfMemory }
{
    match fault {
        MessageFault::TooLong { bytes } => Refusal::LongUpdate { bytes },
        MessageFault::Broken(fault) => match file {
            Some(file) => Refusal::BrokenUpdate {
                name: file.name,
                fault,
            },
            None => unreachable!(),
        },
        MessageFault::NoMemory => Refusal::from(NoMemory),
    }
}
