ghost use Rattle.gtfs_tables.specs.Laws.{NeverBoth, OneFirst, OneTables};

/// What is found of a feed's files gives one value of its tables, or one first file that is not as it has to be. It has
/// one fault that comes first in it. Both never come together.
pub fn one_feed()
    ensures tables { OneTables }
    ensures first { OneFirst }
    ensures never_both { NeverBoth }
{}
