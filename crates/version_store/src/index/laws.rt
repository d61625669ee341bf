ghost use Rattle.version_store.specs.Index.Laws.{OneListOfRows};

/// Rows and departures are one list each. The call does nothing.
pub fn one_index()
    ensures { OneListOfRows }
{}
