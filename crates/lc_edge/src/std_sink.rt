ghost use Rattle.std.specs.Prelude.{◌≡◌, ◌≤◌, IfOk, None, length};

use lc_io::{Sink, SinkFail};
use std::io::{self, Write};

/// The standard output. Each write is flushed, and one that takes nothing is a fault. It records nothing that is there.
#[derive(Drop)]
pub struct StdSink<'a, R: Print> {
    rt: &'a R,
    faults: u64,
}

impl<'a, R: Print> StdSink<'a, R> {
    /// The output, with its count at 0.
    pub fn new(rt: &'a R) -> StdSink<'a, R>
        ensures { result.faults ≡ 0 }
    {
        StdSink { rt, faults: 0 }
    }
}

impl<R: Print> Sink for StdSink<'_, R> {
    ghost seen = { λ s. record { written = None; faults = s.faults; wants = 0 } };

    fn write(&mut self, piece: &[u8]) -> Result<usize, SinkFail> {
        match flushed(self.rt, piece) {
            Ok(count) if count > 0 || piece.is_empty() => Ok(count),
            _ => {
                self.faults = self.faults.saturating_add(1);
                Err(SinkFail::Failed)
            }
        }
    }

    fn faults(&self) -> u64 {
        self.faults
    }
}

/// Writes once, and flushes.
fn flushed<R: Print>(rt: &R, piece: &[u8]) -> io::Result<usize>
    ensures { IfOk result (λ count. count ≤ length piece.now) }
{
    let mut out = io::writer(rt);
    let count = out.write(piece)?;
    out.flush()?;
    Ok(count)
}
