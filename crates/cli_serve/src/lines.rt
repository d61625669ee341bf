ghost use Rattle.std.specs.Prelude.{◌≡◌, ◌++◌, IfOk};
ghost use Rattle.cli_serve.specs.Lines.{listening_line};
ghost use Rattle.cli_serve.specs.Steps.{Puts, line_for};
ghost use Rattle.cli_serve.specs.Written.{SinkNeverFell};

use crate::tally::Tally;
use lc_io::{Sink, SinkFail, put_all};
use lc_model::NoMemory;
use std::alloc::Global;

/// The opening with the line of a door that listens after it.
fn opening_text(alloc: Global, mut opening: Vec<u8>, port: u16) -> Result<Vec<u8>, NoMemory>
    ensures { IfOk result (λ text. text.items ≡ opening.items ++ listening_line port) }
{
    let line = listening_text(alloc, port)?;
    opening.extend_from_slice(line.as_slice())?;
    Ok(opening)
}

/// The line of a door that listens.
fn listening_text(alloc: Global, port: u16) -> Result<Vec<u8>, NoMemory>
    ensures { IfOk result (λ line. line.items ≡ listening_line port) }
{
    let line = format!(in alloc; "listening {port}\n")?;
    Ok(line.into_bytes())
}

/// The line at the end.
fn served_text(alloc: Global, tally: Tally) -> Result<Vec<u8>, NoMemory>
    ensures { IfOk result (λ line. line.items ≡ line_for tally) }
{
    let Tally {
        connections,
        requests,
        faults,
        lost: _,
    } = tally;
    let line = format!(in alloc; "served {connections} requests {requests} faults {faults}\n")?;
    Ok(line.into_bytes())
}

/// Writes a text.
fn put_text<S: Sink>(out: &mut S, text: &[u8]) -> Result<(), SinkFail>
    ensures put { Puts text.now (S.seen out.old) (S.seen out.new) result }
    ensures counts { SinkNeverFell (S.seen out.old) (S.seen out.new) }
{
    put_all(out, text)
}

/// Writes the opening, with the line of a door that listens after it.
pub fn put_opening<S: Sink>(
    alloc: Global,
    opening: Vec<u8>,
    port: u16,
    out: &mut S,
) -> Result<(), SinkFail>
    ensures put { Puts (opening.items ++ listening_line port) (S.seen out.old) (S.seen out.new) result }
    ensures counts { SinkNeverFell (S.seen out.old) (S.seen out.new) }
{
    let Ok(text) = opening_text(alloc, opening, port) else {
        return Err(SinkFail::NoMemory);
    };
    put_text(out, text.as_slice())
}

/// Writes the line at the end.
pub fn put_served<S: Sink>(alloc: Global, tally: Tally, out: &mut S) -> Result<(), SinkFail>
    ensures put { Puts (line_for tally) (S.seen out.old) (S.seen out.new) result }
    ensures counts { SinkNeverFell (S.seen out.old) (S.seen out.new) }
{
    let Ok(line) = served_text(alloc, tally) else {
        return Err(SinkFail::NoMemory);
    };
    put_text(out, line.as_slice())
}
