ghost use Rattle.timetable.specs.Laws.{BrokenEnds, FineEnds, LoadsRecorded, MuchEnds, NoZoneEnds, NotBroken, NotTooLarge, OneEnd, OneOfTables, OneTimetable, RowsEnd};

use change_table::one_list_of_changes;
use gtfs_tables::one_feed;
use service_days::{one_list_of_days, one_zone_a_word};
use trip_calls::one_list_of_runs;

/// The files that a directory records have one timetable in a scope. It is what is loaded from it. A feed that has one is not
/// refused.
pub fn one_timetable()
    ensures of_tables { OneOfTables }
    ensures one { OneTimetable }
    ensures loads_recorded { LoadsRecorded }
    ensures not_broken { NotBroken }
    ensures not_too_large { NotTooLarge }
{
    one_zone_a_word();
    one_feed();
    one_list_of_days();
    one_list_of_runs();
    one_list_of_changes();
}

/// The loading of recorded files ends in one way, but for faults of the directory and running out of memory. The end is as the word of the
/// zone, the first file that is wrong, or a limit has it. Else it is a timetable.
pub fn one_end()
    ensures one { OneEnd }
    ensures no_zone { NoZoneEnds }
    ensures broken { BrokenEnds }
    ensures too_many_rows { RowsEnd }
    ensures too_much { MuchEnds }
    ensures made { FineEnds }
{
    one_timetable();
    one_zone_a_word();
    one_feed();
    one_list_of_days();
    one_list_of_runs();
}
