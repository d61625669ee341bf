ghost use Rattle.std.specs.Prelude.{◌≡◌, ◌+◌, IfErr, IfOk, OnOk, Some, length};
ghost use Rattle.cli_ask.specs.Admission.{IsBehind, IsFaultBy, IsFaulty, IsIgnored, admitted_line_of, ignored_line_of};

use fragmenter::Cutting;
use lc_io::File;
use lc_model::NoMemory;
use lc_time::iso_text;
use percent_encoding::ascii_str;
use publisher::Publisher;
use std::alloc::Global;
use version_store::{AdmitFault, Admitted, MessageFault};

/// What became of messages that a publisher received: a line for each, and how many of them were admitted.
#[derive(Drop)]
pub struct Heard {
    pub lines: Vec<u8>,
    pub admitted: usize,
}

/// Gives the message of a file to a publisher, if there is one, and says in a line what became of it. One that is not newer, or for
/// which there is no room, is ignored.
pub(crate) fn admit(
    alloc: Global,
    publisher: &mut Publisher<Cutting>,
    file: &Option<File>,
) -> Result<Vec<u8>, MessageFault>
    ensures same { publisher.new ≡ record publisher.old { store = publisher.new.store } }
    ensures line { IfOk result (λ line. IsBehind file.now publisher.old.store publisher.new.store line.items) }
    ensures faulty { IfErr result (IsFaulty file.now) }
{
    match file {
        None => Ok(Vec::new(alloc)),
        Some(file) => match give(alloc, publisher, file) {
            Ok(Heard { lines, .. }) => Ok(lines),
            Err(fault) => Err(fault),
        },
    }
}

/// Gives the message of a file that is there to the publisher. It says in a line what became of it, and counts it where it is admitted.
#[tactic(auto, using(crate::proofs::AdmissionLemmas::one_longer))]
pub fn give(
    alloc: Global,
    publisher: &mut Publisher<Cutting>,
    file: &File,
) -> Result<Heard, MessageFault>
    ensures same { publisher.new ≡ record publisher.old { store = publisher.new.store } }
    ensures line { IfOk result (λ heard. IsBehind (Some file.now) publisher.old.store publisher.new.store heard.lines.items) }
    ensures admitted { IfOk result (λ heard. length publisher.new.store.history ≡ length publisher.old.store.history + heard.admitted) }
    ensures faulty { IfErr result (IsFaulty (Some file.now)) }
{
    let name = file.name.as_str();
    match publisher.admit(alloc, file.bytes.as_slice()) {
        Ok(admitted) => Ok(Heard {
            lines: admitted_line(alloc, name, admitted)?,
            admitted: 1,
        }),
        Err(fault) => match passed_over(alloc, name, fault) {
            Ok(lines) => Ok(Heard { lines, admitted: 0 }),
            Err(fault) => Err(fault),
        },
    }
}

/// The line of a message that is ignored, or why its file is at fault.
fn passed_over(alloc: Global, name: &str, fault: AdmitFault) -> Result<Vec<u8>, MessageFault>
    ensures line { IfOk result (λ line. line.items ≡ ignored_line_of name.now fault) }
    ensures ignored { OnOk result (IsIgnored fault) }
    ensures faulty { IfErr result (IsFaultBy fault) }
{
    match fault {
        AdmitFault::NotNewer { .. } | AdmitFault::Full { .. } => {
            Ok(ignored_line(alloc, name, fault)?)
        }
        AdmitFault::TooLong { bytes } => Err(MessageFault::TooLong { bytes }),
        AdmitFault::Broken(fault) => Err(MessageFault::Broken(fault)),
        AdmitFault::NoMemory => Err(MessageFault::NoMemory),
    }
}

fn admitted_line(alloc: Global, name: &str, admitted: Admitted) -> Result<Vec<u8>, NoMemory>
    ensures { IfOk result (λ line. line.items ≡ admitted_line_of name.now admitted) }
{
    let text = iso_text(admitted.moment);
    let moment = ascii_str(&text);
    let passed = admitted.passed;
    let line = format!(in alloc; "update {name} admitted {moment} passed {passed}\n")?;
    Ok(line.into_bytes())
}

fn ignored_line(alloc: Global, name: &str, fault: AdmitFault) -> Result<Vec<u8>, NoMemory>
    ensures { IfOk result (λ line. line.items ≡ ignored_line_of name.now fault) }
{
    let line = format!(in alloc; "update {name} {fault}\n")?;
    Ok(line.into_bytes())
}
