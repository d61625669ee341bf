ghost use Rattle.std.specs.Prelude.{◌≡◌, ◌<◌, ◌≤◌, ◌↔◌, ◌++◌, [], Some, length, take, IfOk, MatchResult, IsErrOf, Contains};
ghost use Rattle.lc_io.specs.Counts.{Counts, HasCause, one_more};
ghost use Rattle.lc_io.specs.MemSink.{MemSinkState};
ghost use Rattle.lc_io.specs.declared.sink.SinkFail.TheVariants.{Failed, NoMemory as OutOfMemory};

use crate::{Sink, SinkFail};
use lc_model::NoMemory;
use std::alloc::Global;
use std::marker::Model;

/// A sink in memory, some of whose writes fail.
#[derive(Drop)]
pub struct MemSink {
    written: Vec<u8>,
    fails: Vec<u64>,
    writes: u64,
    faults: u64,
    wants: u64,
}

impl Model for MemSink {
    ghost use Rattle.lc_io.specs.MemSink.{MemSinkState};

    ghost Value = { MemSinkState };

    ghost view = { λ s. record {
      written = s.written.items;
      fails = s.fails.items;
      writes = s.writes;
      faults = s.faults;
      wants = s.wants;
    } };
}

impl MemSink {
    /// An empty sink, in which the writes of these numbers, from 1, fail.
    pub fn new(alloc: Global, fails: Vec<u64>) -> Result<MemSink, NoMemory>
        ensures { IfOk result (λ sink. sink ≡ record { written = []; fails = fails.items; writes = 0; faults = 0; wants = 0 }) }
    {
        Ok(MemSink {
            written: Vec::new(alloc),
            fails,
            writes: 0,
            faults: 0,
            wants: 0,
        })
    }

    pub fn written(&self) -> &[u8]
        ensures { result.now ≡ self.now.written }
    {
        self.written.as_slice()
    }
}

impl Sink for MemSink {
    ghost seen = { λ s. record { written = Some s.written; faults = s.faults; wants = s.wants } };

    fn write(&mut self, piece: &[u8]) -> Result<usize, SinkFail>
        ensures written { MatchResult result
            (λ n. Some self.new.written ≡ Some (self.old.written ++ take n piece.now))
            (λ _. Some self.new.written ≡ Some self.old.written) }
        ensures at_most { IfOk result (λ n. n ≤ length piece.now) }
        ensures at_least { IfOk result (λ n. 0 < length piece.now → 0 < n) }
        ensures faults { HasCause self.old.faults self.new.faults (IsErrOf result Failed) }
        ensures wants { HasCause self.old.wants self.new.wants (IsErrOf result OutOfMemory) }
        ensures writes { self.new ≡ record self.old {
          written = self.new.written;
          writes = one_more self.old.writes;
          faults = self.new.faults;
          wants = self.new.wants;
        } }
        ensures listed { IsErrOf result Failed ↔ Contains self.old.fails (one_more self.old.writes) }
        ensures each_fault { Counts self.old.faults self.new.faults (IsErrOf result Failed) }
        ensures each_want { Counts self.old.wants self.new.wants (IsErrOf result OutOfMemory) }
    {
        self.writes = self.writes.saturating_add(1);
        if self.fails.contains(&self.writes) {
            self.faults = self.faults.saturating_add(1);
            return Err(SinkFail::Failed);
        }
        match self.written.extend_from_slice(piece) {
            Ok(()) => Ok(piece.len()),
            Err(_) => {
                self.wants = self.wants.saturating_add(1);
                Err(SinkFail::NoMemory)
            }
        }
    }

    fn faults(&self) -> u64 {
        self.faults
    }
}
