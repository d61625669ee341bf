ghost use Rattle.version_store.specs.IndexLaws.Rows.{OrderedAreDepartures, SortedAreRows};

/// From a list that has the connections of runs in any order, rows and departures are made by sorting what is asked for alone.
pub fn sorted_are_rows()
    ensures rows { SortedAreRows }
    ensures departures { OrderedAreDepartures }
{}
