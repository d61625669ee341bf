ghost use Rattle.lc_time.specs.Laws.{DateSaid, OneDate, OneHttpMoment, OneMoment, OneStart, OneTime, TimeSaid};

/// A text says one date, one start, one time of day and one moment. What `date_said` and `gtfs_time_said` compute is what
/// the text is written of.
pub fn one_value_a_text()
    ensures date { OneDate }
    ensures start { OneStart }
    ensures time { OneTime }
    ensures moment { OneMoment }
    ensures http { OneHttpMoment }
    ensures date_said { DateSaid }
    ensures time_said { TimeSaid }
{}
