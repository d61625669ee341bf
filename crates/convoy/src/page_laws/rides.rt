ghost use Rattle.std.specs.Prelude.{◌≤◌, ◌↔◌, ℕ, List, Option};
ghost use Rattle.std.specs.List.{All};
ghost use Rattle.lc_model.specs.Call.{GoesForward};
ghost use Rattle.lc_model.specs.Connection.{AreConnectionsOf};
ghost use Rattle.lc_model.specs.Journey.{IsJourney, IsLeastArrival};
ghost use Rattle.lc_model.specs.Leg.{IsChain, IsLegOf, IsListBest, in_time};
ghost use Rattle.lc_model.specs.Question.{latest_of};
ghost use Rattle.lc_model.specs.Ride.{IsRideAt};
ghost use Rattle.lc_model.specs.declared.journey.Journey.{Journey as JourneyValue};
ghost use Rattle.lc_model.specs.declared.ride.Ride.{Ride as RideValue};
ghost use Rattle.lc_model.specs.declared.run.Run.{Run as RunValue};
ghost use Rattle.lc_model.specs.Versions.Pages.{CutPage};
ghost use Rattle.convoy.specs.PageLaws.Chain.{ArePagesOf};
ghost use Rattle.convoy.specs.PageLaws.Rides.{ChainsAreThere, EarlyMayGo, LeastIsThere, LeastWithoutEarly, LegsStandThere, LegsThereAreLegs, connections_on};

use crate::page_laws::chains_are_journeys;
use lc_model::{Connections, Query, Runs, StopsDoc};

/// The legs of a question are along the links to the next page. They begin with the page for the moment at which it
/// leaves.
pub fn legs_along_next()
    ensures legs_stand_there { LegsStandThere }
    ensures legs_there_are_legs { LegsThereAreLegs }
    ensures chains_are_there { ChainsAreThere }
    ensures least_is_there { LeastIsThere }
{}

/// Connections that depart before the question leaves change nothing of its answer.
pub fn early_may_go()
    ensures chains_stay { EarlyMayGo }
    ensures least_stays { LeastWithoutEarly }
{}

/// The rides of a timetable that are of use to a question are legs along the links to the next page. The legs there are
/// rides, and the chains there are the journeys.
pub fn journeys_along_next(runs: &Runs, list: &Connections, query: &Query, doc: &StopsDoc)
    requires forward { All (λ (run : RunValue). GoesForward run.calls) runs.now }
    requires connections { AreConnectionsOf runs.now list.now }
    ensures rides_stand_there { (first : CutPage) (rest : List CutPage) (ride : RideValue) → ArePagesOf list.now first rest
        → query.now.leave ≤ ride.dep → ride.arr ≤ latest_of query.now → IsRideAt runs.now ride
        → IsLegOf (in_time query.now (connections_on first rest query.now)) ride }
    ensures legs_there_are_rides { (first : CutPage) (rest : List CutPage) (ride : RideValue) → ArePagesOf list.now first rest
        → IsLegOf (in_time query.now (connections_on first rest query.now)) ride → IsRideAt runs.now ride }
    ensures journeys_are_there { (first : CutPage) (rest : List CutPage) (journey : JourneyValue) → ArePagesOf list.now first rest
        → (IsJourney (IsRideAt runs.now) query.now doc.now journey ↔ IsChain query.now doc.now (connections_on first rest query.now) journey) }
    ensures least_is_there { (first : CutPage) (rest : List CutPage) (best : Option ℕ) → ArePagesOf list.now first rest
        → (IsLeastArrival (IsRideAt runs.now) query.now doc.now best ↔ IsListBest query.now doc.now (connections_on first rest query.now) best) }
{
    let _runs = runs.as_slice();
    let _list = list.as_slice();
    chains_are_journeys(runs, list, query, doc);
}
