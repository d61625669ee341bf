ghost use Rattle.std.specs.Prelude.{◌≡◌, ◌<◌, ◌≤◌, ℕ, length, IfOk, OnOk, OnErr, MatchResult, IsErrOf};
ghost use Rattle.lc_io.specs.Counts.{HasCause};
ghost use Rattle.lc_io.specs.Sink.{SinkSeen, written_after};
ghost use Rattle.lc_io.specs.declared.sink.SinkFail.TheVariants.{Failed, NoMemory as OutOfMemory};

/// Why a sink took nothing.
#[derive(Clone, Copy, PartialEq, Eq)]
pub enum SinkFail {
    Failed,
    NoMemory,
}

/// Where output is written.
pub trait Sink {
    /// What is known of the sink.
    ghost seen: { Self → SinkSeen };

    /// Takes bytes of the front of the piece, at least one of a piece that is not empty, and says how many.
    fn write(&mut self, piece: &[u8]) -> Result<usize, SinkFail>
        ensures written { MatchResult result
            (λ n. (seen self.new).written ≡ written_after (seen self.old).written piece.now n)
            (λ _. (seen self.new).written ≡ (seen self.old).written) }
        ensures at_most { IfOk result (λ n. n ≤ length piece.now) }
        ensures at_least { IfOk result (λ n. 0 < length piece.now → 0 < n) }
        ensures faults { HasCause (seen self.old).faults (seen self.new).faults (IsErrOf result Failed) }

        // A sink counts its wants of memory too.
        ensures wants { HasCause (seen self.old).wants (seen self.new).wants (IsErrOf result OutOfMemory) };

    /// How often a write has failed.
    fn faults(&self) -> u64
        ensures { result ≡ (seen self.now).faults };
}

/// Writes all the bytes. An error leaves a front of them written.
pub fn put_all<S: Sink>(sink: &mut S, bytes: &[u8]) -> Result<(), SinkFail>
    ensures ok { OnOk result ((S.seen sink.new).written ≡ written_after (S.seen sink.old).written bytes.now (length bytes.now)) }
    ensures err { OnErr result ((n : ℕ) × (n ≤ length bytes.now)
        × ((S.seen sink.new).written ≡ written_after (S.seen sink.old).written bytes.now n)) }
    ensures faults { HasCause (S.seen sink.old).faults (S.seen sink.new).faults (IsErrOf result SinkFail.Failed) }
    ensures wants { HasCause (S.seen sink.old).wants (S.seen sink.new).wants (IsErrOf result SinkFail.NoMemory) }
{
    let mut done = 0;
    while done < bytes.len() {
        done += sink.write(&bytes[done..])?;
    }
    Ok(())
}
