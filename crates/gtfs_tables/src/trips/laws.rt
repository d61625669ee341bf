ghost use Rattle.gtfs_tables.specs.Trips.Laws.{NeverBothStopTimes, NeverBothStops, NeverBothTrips, OneStopTimes, OneStopTimesFault, OneStops, OneStopsFault, OneTrips, OneTripsFault};

/// stops.txt says one list of stops, or has one first fault, and never both.
pub fn one_stops()
    ensures stops { OneStops }
    ensures fault { OneStopsFault }
    ensures never_both { NeverBothStops }
{}

/// trips.txt says one list of trips, or has one first fault, and never both.
pub fn one_trips()
    ensures trips { OneTrips }
    ensures fault { OneTripsFault }
    ensures never_both { NeverBothTrips }
{}

/// stop_times.txt says one list of stop times of the stops and trips, and one of the trips that are not left out. Or it has
/// one first fault. Both never come together.
pub fn one_stop_times()
    ensures times { OneStopTimes }
    ensures fault { OneStopTimesFault }
    ensures never_both { NeverBothStopTimes }
{}
