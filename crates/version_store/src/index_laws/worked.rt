ghost use Rattle.lc_model.specs.declared.key.RunKey.{RunKey};
ghost use Rattle.lc_model.specs.Versions.News.{TripSaid};
ghost use Rattle.version_store.specs.IndexLaws.Worked.{WorkedIds, WorkedSpots};

/// Small values that were worked out by hand.
pub fn worked_index()
    ensures spots { (key : RunKey) → WorkedSpots key }
    ensures ids { (first second third : TripSaid) → WorkedIds first second third }
{}
