ghost use Rattle.std.specs.Prelude.{◌≡◌, List, Option};
ghost use Rattle.std.specs.List.{All};
ghost use Rattle.lc_model.specs.Call.{GoesForward};
ghost use Rattle.lc_model.specs.Connection.{AreConnectionsOf};
ghost use Rattle.lc_model.specs.Ride.{IsRideAt};
ghost use Rattle.lc_model.specs.declared.journey.Journey.{Journey as JourneyValue};
ghost use Rattle.lc_model.specs.declared.run.Run.{Run as RunValue};
ghost use Rattle.lc_model.specs.Versions.Pages.{CutPage};
ghost use Rattle.convoy.specs.PageLaws.Chain.{ArePagesOf};
ghost use Rattle.back_scan.specs.StandsFor.{IsLatestChain};
ghost use Rattle.back_client.specs.Ends.LatestOf.{IsLatestOf};
ghost use Rattle.back_client.specs.Ends.NeededBack.{AreNeededBack, IsTakenBackUntilOver, connections_back, pages_back};

use convoy::chains_are_journeys;
use lc_model::{Connections, Query, Runs, StopsDoc};

/// A client that takes page after page back until it is over takes the needed pages for the journeys of a timetable. A latest chain of
/// what it took is a latest journey, and where it has none there is no journey.
pub fn journeys_back(runs: &Runs, list: &Connections, query: &Query, doc: &StopsDoc)
    requires forward { All (λ (run : RunValue). GoesForward run.calls) runs.now }
    requires connections { AreConnectionsOf runs.now list.now }
    ensures needed { (first : CutPage) (rest taken needed : List CutPage) → ArePagesOf list.now first rest
        → AreNeededBack (IsRideAt runs.now) query.now doc.now first rest needed → IsTakenBackUntilOver query.now doc.now (pages_back first rest query.now) taken
        → taken ≡ needed }
    ensures latest { (first : CutPage) (rest taken : List CutPage) (journey : Option JourneyValue) → ArePagesOf list.now first rest
        → IsTakenBackUntilOver query.now doc.now (pages_back first rest query.now) taken → IsLatestChain query.now doc.now (connections_back taken) journey
        → IsLatestOf (IsRideAt runs.now) query.now doc.now journey }
{
    let _list = list.as_slice();
    chains_are_journeys(runs, list, query, doc);
}
