ghost use Rattle.std.specs.Prelude.{◌≡◌, ◌≤◌, ◌++◌, ◌↔◌, ℕ, List, Option, Some};
ghost use Rattle.std.specs.List.{All};
ghost use Rattle.lc_model.specs.Call.{GoesForward};
ghost use Rattle.lc_model.specs.Connection.{AreConnectionsOf, last_departure};
ghost use Rattle.lc_model.specs.Journey.{IsLeastArrival};
ghost use Rattle.lc_model.specs.Leg.{IsListBest};
ghost use Rattle.lc_model.specs.Ride.{IsRideAt};
ghost use Rattle.lc_model.specs.declared.run.Run.{Run as RunValue};
ghost use Rattle.lc_model.specs.Versions.Pages.{CutPage};
ghost use Rattle.convoy.specs.PageLaws.Chain.{ArePagesOf, connections_along};
ghost use Rattle.convoy.specs.PageLaws.Rides.{pages_on};
ghost use Rattle.convoy.specs.PageLaws.Stop.{FrontMayBeAll, FrontWithChainMayBeAll, PagesMayBeAll, bound_of};

use crate::page_laws::journeys_along_next;
use lc_model::{Connections, Query, Runs, StopsDoc};

/// Where what was taken departs last at the bound or later, what follows changes nothing. No chain arrives earlier, and
/// where there is none yet there is none at all.
pub fn stop_is_right()
    ensures front_may_be_all { FrontMayBeAll }
    ensures front_with_chain { FrontWithChainMayBeAll }
    ensures pages_may_be_all { PagesMayBeAll }
{}

/// Where what was taken departs last at the bound or later, no journey of a timetable arrives earlier than it does. Where it has no
/// chain there is no journey.
pub fn no_journey_arrives_earlier(runs: &Runs, list: &Connections, query: &Query, doc: &StopsDoc)
    requires forward { All (λ (run : RunValue). GoesForward run.calls) runs.now }
    requires connections { AreConnectionsOf runs.now list.now }
    ensures { (first : CutPage) (rest taken left : List CutPage) (best : Option ℕ) (last : ℕ) → ArePagesOf list.now first rest
        → pages_on first rest query.now ≡ taken ++ left → last_departure (connections_along taken) ≡ Some last → bound_of query.now best ≤ last
        → (IsListBest query.now doc.now (connections_along taken) best ↔ IsLeastArrival (IsRideAt runs.now) query.now doc.now best) }
{
    let _list = list.as_slice();
    journeys_along_next(runs, list, query, doc);
}
