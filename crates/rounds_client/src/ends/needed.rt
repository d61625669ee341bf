ghost use Rattle.std.specs.Prelude.{◌↔◌, List, Option};
ghost use Rattle.std.specs.List.{All};
ghost use Rattle.lc_model.specs.Call.{GoesForward};
ghost use Rattle.lc_model.specs.Connection.{AreConnectionsOf};
ghost use Rattle.lc_model.specs.Ride.{IsRideAt};
ghost use Rattle.lc_model.specs.declared.journey.Journey.{Journey as JourneyValue};
ghost use Rattle.lc_model.specs.declared.run.Run.{Run as RunValue};
ghost use Rattle.lc_model.specs.Versions.Pages.{CutPage};
ghost use Rattle.change_rounds.specs.Fewest.{IsFewestAnswer, IsFewestChain};
ghost use Rattle.convoy.specs.PageLaws.Chain.{ArePagesOf, connections_along};
ghost use Rattle.convoy.specs.PageLaws.Needed.{AreNeeded};
ghost use Rattle.rounds_client.specs.Ends.Needed.{BestAreInNeeded, FewestAreInNeeded};

use convoy::journeys_along_next;
use lc_model::{Connections, Query, Runs, StopsDoc};

/// Every connection of every best journey is on the needed pages: it departs no later than the best arrival, and no second is split.
pub fn fewest_are_in_needed()
    ensures best { BestAreInNeeded }
    ensures fewest { FewestAreInNeeded }
{}

/// A journey of the fewest rides on the needed pages is one of a timetable, with as many rides. Where there is none on them, the
/// timetable has none.
pub fn fewest_of_journeys(runs: &Runs, list: &Connections, query: &Query, doc: &StopsDoc)
    requires forward { All (λ (run : RunValue). GoesForward run.calls) runs.now }
    requires connections { AreConnectionsOf runs.now list.now }
    ensures { (first : CutPage) (rest needed : List CutPage) (journey : Option JourneyValue) → ArePagesOf list.now first rest
        → AreNeeded (IsRideAt runs.now) query.now doc.now first rest needed
        → (IsFewestChain query.now doc.now (connections_along needed) journey ↔ IsFewestAnswer (IsRideAt runs.now) query.now doc.now journey) }
{
    let _list = list.as_slice();
    journeys_along_next(runs, list, query, doc);
}
