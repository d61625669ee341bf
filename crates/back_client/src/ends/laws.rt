ghost use Rattle.back_client.specs.Ends.Laws.{LatestEndsRight, LatestIsFound, LatestStays, NamedAtGate, NeededBackStays, OneDepartureAt, OneLatestEnd, OneListOfNeededBackAt};

use lc_world::Link;

/// Over an honest link a question for the latest departure ends rightly. Without a failure it found a journey that leaves as late as any, at
/// the version which the time gate named. Where there is none, it found none. It asked for the time gate, the stops document and the needed
/// pages back, and for nothing else. That version is the one that the known moment means at the side which the exchange with the time gate
/// left.
pub fn latest_ends_right<L: Link>()
    ensures right { LatestEndsRight L.seen }
    ensures found { LatestIsFound L.seen }
    ensures gate { NamedAtGate L.seen }
{}

/// Two right ends over quiet links with one side are alike: they name one version after as many exchanges, and leave at one moment.
pub fn one_latest_end<L: Link, M: Link>()
    ensures { OneLatestEnd L.seen M.seen }
{}

/// The latest answers at a version leave at one moment, the needed pages are one list, and both stay.
pub fn one_latest_answer()
    ensures departure { OneDepartureAt }
    ensures needed { OneListOfNeededBackAt }
    ensures answers_stay { LatestStays }
    ensures needed_stay { NeededBackStays }
{}
