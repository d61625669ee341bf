ghost use Rattle.std.specs.Prelude.{ℕ, List};
ghost use Rattle.page_relay.specs.Worked.{WorkedFinds, WorkedRecorded, WorkedTranscripts, WorkedUses};

/// Values that were worked out by hand, which the definitions take: which replies are found, and what is kept after one was used or kept.
pub fn worked_memories()
    ensures finds { WorkedFinds }
    ensures uses { WorkedUses }
{}

/// The definitions take transcripts of relays that were worked out by hand, also of one over the other. They take what two equal requests leave of
/// a relay with one entry.
pub fn worked_relays()
    ensures transcripts { WorkedTranscripts }
    ensures recorded { (reply : List ℕ) → WorkedRecorded reply }
{}
