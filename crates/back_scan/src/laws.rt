ghost use Rattle.back_scan.specs.Laws.{OneLatestDeparture, OneListLatest};

/// The journeys of a question have one latest departure, or there is no journey.
pub fn one_latest_departure()
    ensures journeys { OneLatestDeparture }
    ensures chains { OneListLatest }
{}
