ghost use Rattle.gtfs_rows.specs.Laws.{NeverBoth, OneFault, OneSheet};

/// Bytes say one sheet or have one first fault, and never both.
pub fn one_table()
    ensures sheet { OneSheet }
    ensures fault { OneFault }
    ensures never_both { NeverBoth }
{}
