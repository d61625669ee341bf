ghost use Rattle.trip_calls.specs.Laws.{BlankRowsLieBetween, OneListOfRuns};
ghost use Rattle.trip_calls.specs.Worked.{WorkedStarts, WorkedTimes};

/// The runs of a feed's trips on the dates of their services are one list.
pub fn one_list_of_runs()
    ensures { OneListOfRuns }
{}

/// A row without a time takes its time from the nearest rows with one, before it and after it.
pub fn blank_rows_lie_between()
    ensures { BlankRowsLieBetween }
{}

/// Of four rows, the first at 08:00:00 and the last at 08:10:00, those between are at 08:03:20 and 08:06:40.
pub fn worked_times()
    ensures { WorkedTimes }
{}

/// From 06:00:00 to 07:00:00, each 20 minutes, a trip starts at 06:00:00, 06:20:00 and 06:40:00, and at no other time.
pub fn worked_starts()
    ensures { WorkedStarts }
{}
