ghost use Rattle.std.specs.Prelude.{◌≡◌, ◌++◌, IfOk, OnOk, codes, decimal};
ghost use Rattle.cli_ask.specs.Block.{IsPrintable, client_text_of, link_fault_line_of, outcome_text_of, version_line_of};

use crate::ClientEnd;
use journey_text::journey_text;
use lc_model::{Moment, NoMemory};
use lc_time::iso_text;
use page_client::Outcome;
use percent_encoding::ascii_str;
use std::alloc::Global;

/// Adds the lines of client k to a text: its number, its version, how it ended, and how many exchanges it made. Where memory runs out the
/// text may have some of them.
pub fn push_client(
    alloc: Global,
    k: usize,
    end: &ClientEnd,
    text: &mut Vec<u8>,
) -> Result<(), NoMemory>
    requires { IsPrintable end.now.outcome }
    ensures { OnOk result (text.new.items ≡ text.old.items ++ client_text_of k end.now) }
{
    push_number(alloc, k, text)?;
    push_version(alloc, end.version, text)?;
    push_outcome(alloc, &end.outcome, text)?;
    push_count(alloc, end.exchanges, text)
}

/// Adds the line of a client's number.
fn push_number(alloc: Global, k: usize, text: &mut Vec<u8>) -> Result<(), NoMemory>
    ensures { OnOk result (text.new.items ≡ text.old.items ++ codes "client " ++ decimal k ++ codes "\n") }
{
    let line = number_line(alloc, k)?;
    text.extend_from_slice(line.as_slice())?;
    Ok(())
}

/// The line of a client's number.
fn number_line(alloc: Global, k: usize) -> Result<Vec<u8>, NoMemory>
    ensures { IfOk result (λ line. line.items ≡ codes "client " ++ decimal k ++ codes "\n") }
{
    let line = format!(in alloc; "client {k}\n")?;
    Ok(line.into_bytes())
}

/// Adds the line of a version, where there is one.
fn push_version(alloc: Global, version: Option<Moment>, text: &mut Vec<u8>) -> Result<(), NoMemory>
    ensures { OnOk result (text.new.items ≡ text.old.items ++ version_line_of version) }
{
    let line = version_line(alloc, version)?;
    text.extend_from_slice(line.as_slice())?;
    Ok(())
}

/// The line of a version, where there is one.
fn version_line(alloc: Global, version: Option<Moment>) -> Result<Vec<u8>, NoMemory>
    ensures { IfOk result (λ line. line.items ≡ version_line_of version) }
{
    match version {
        None => Ok(Vec::new(alloc)),
        Some(version) => {
            let bytes = iso_text(version);
            let moment = ascii_str(&bytes);
            let line = format!(in alloc; "version {moment}\n")?;
            Ok(line.into_bytes())
        }
    }
}

/// Adds the line of the number of exchanges.
fn push_count(alloc: Global, exchanges: u64, text: &mut Vec<u8>) -> Result<(), NoMemory>
    ensures { OnOk result (text.new.items ≡ text.old.items ++ codes "exchanges " ++ decimal exchanges ++ codes "\n") }
{
    let line = count_line(alloc, exchanges)?;
    text.extend_from_slice(line.as_slice())?;
    Ok(())
}

/// The line of the number of exchanges.
fn count_line(alloc: Global, exchanges: u64) -> Result<Vec<u8>, NoMemory>
    ensures { IfOk result (λ line. line.items ≡ codes "exchanges " ++ decimal exchanges ++ codes "\n") }
{
    let line = format!(in alloc; "exchanges {exchanges}\n")?;
    Ok(line.into_bytes())
}

/// Adds the lines of an answer, or the line that says why there is none.
fn push_outcome(alloc: Global, outcome: &Outcome, text: &mut Vec<u8>) -> Result<(), NoMemory>
    requires { IsPrintable outcome.now }
    ensures { OnOk result (text.new.items ≡ text.old.items ++ outcome_text_of outcome.now) }
{
    let lines = outcome_text(alloc, outcome)?;
    text.extend_from_slice(lines.as_slice())?;
    Ok(())
}

/// The lines of an answer, or the line that says why there is none.
fn outcome_text(alloc: Global, outcome: &Outcome) -> Result<Vec<u8>, NoMemory>
    requires { IsPrintable outcome.now }
    ensures { IfOk result (λ text. text.items ≡ outcome_text_of outcome.now) }
{
    match outcome {
        Outcome::Found(journey) => journey_text(alloc, journey),
        Outcome::NoJourney => Ok(Vec::from_slice(alloc, b"no journey\n")?),
        Outcome::Refused(fault) => Ok(format!(in alloc; "{fault}\n")?.into_bytes()),
        Outcome::LinkFault { before, after } => link_fault_line(alloc, *before, *after),
        Outcome::PeerWrong { reply: _, fault } => Ok(format!(in alloc; "{fault}\n")?.into_bytes()),
    }
}

/// The line of a fault of the link.
fn link_fault_line(alloc: Global, before: u64, after: u64) -> Result<Vec<u8>, NoMemory>
    ensures { IfOk result (λ line. line.items ≡ link_fault_line_of before after) }
{
    let line = format!(in alloc; "link fault {before} {after}\n")?;
    Ok(line.into_bytes())
}
