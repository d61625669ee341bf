ghost use Rattle.std.specs.Prelude.{◌≡◌, ◌<◌, ◌≤◌, ◌++◌, [], Some, length, take, IfOk, MatchResult, IsErrOf};
ghost use Rattle.lc_io.specs.Counts.{Counts, HasCause};
ghost use Rattle.lc_io.specs.declared.sink.SinkFail.TheVariants.{Failed, NoMemory as OutOfMemory};

use crate::{Sink, SinkFail};
use lc_model::NoMemory;
use std::alloc::Global;
use std::marker::Model;

/// A sink in memory, of which no write fails.
#[derive(Drop)]
pub struct SureSink {
    written: Vec<u8>,
    wants: u64,
}

impl Model for SureSink {
    ghost use Rattle.lc_io.specs.SureSink.{SureSinkState};

    ghost Value = { SureSinkState };

    ghost view = { λ s. record { written = s.written.items; wants = s.wants } };
}

impl SureSink {
    /// An empty sink.
    pub fn new(alloc: Global) -> Result<SureSink, NoMemory>
        ensures { IfOk result (λ sink. sink ≡ record { written = []; wants = 0 }) }
    {
        Ok(SureSink {
            written: Vec::new(alloc),
            wants: 0,
        })
    }

    pub fn written(&self) -> &[u8]
        ensures { result.now ≡ self.now.written }
    {
        self.written.as_slice()
    }
}

impl Sink for SureSink {
    ghost seen = { λ s. record { written = Some s.written; faults = 0; wants = s.wants } };

    fn write(&mut self, piece: &[u8]) -> Result<usize, SinkFail>
        ensures written { MatchResult result
            (λ n. Some self.new.written ≡ Some (self.old.written ++ take n piece.now))
            (λ _. Some self.new.written ≡ Some self.old.written) }
        ensures at_most { IfOk result (λ n. n ≤ length piece.now) }
        ensures at_least { IfOk result (λ n. 0 < length piece.now → 0 < n) }
        ensures never { IsErrOf result Failed → ⊥ }
        ensures faults { HasCause 0 0 (IsErrOf result Failed) }
        ensures wants { HasCause self.old.wants self.new.wants (IsErrOf result OutOfMemory) }
        ensures each_want { Counts self.old.wants self.new.wants (IsErrOf result OutOfMemory) }
    {
        match self.written.extend_from_slice(piece) {
            Ok(()) => Ok(piece.len()),
            Err(_) => {
                self.wants = self.wants.saturating_add(1);
                Err(SinkFail::NoMemory)
            }
        }
    }

    fn faults(&self) -> u64 {
        0
    }
}
