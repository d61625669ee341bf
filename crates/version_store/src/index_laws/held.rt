ghost use Rattle.version_store.specs.IndexLaws.Held.{HeldAreLive, LiveRunsHold, OneRunOfKey, OrderedAreLive, SameConnections};

/// Runs that hold by some news are the live runs in any order, with the same connections, and no two of one key.
pub fn held_are_live()
    ensures hold { LiveRunsHold }
    ensures ordered { OrderedAreLive }
    ensures live { HeldAreLive }
    ensures connections { SameConnections }
    ensures one { OneRunOfKey }
{}
