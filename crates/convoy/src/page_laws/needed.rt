ghost use Rattle.std.specs.Prelude.{◌≡◌, ℕ, List, Option};
ghost use Rattle.std.specs.List.{All};
ghost use Rattle.lc_model.specs.Call.{GoesForward};
ghost use Rattle.lc_model.specs.Connection.{AreConnectionsOf};
ghost use Rattle.lc_model.specs.Leg.{IsListBest};
ghost use Rattle.lc_model.specs.Ride.{IsRideAt};
ghost use Rattle.lc_model.specs.declared.run.Run.{Run as RunValue};
ghost use Rattle.lc_model.specs.Versions.Pages.{CutPage};
ghost use Rattle.convoy.specs.PageLaws.Chain.{ArePagesOf};
ghost use Rattle.convoy.specs.PageLaws.Needed.{AlwaysStops, AreNeeded, IsTakenUntilOver, OneListOfNeeded, OverIsOver, TakesTheNeeded};
ghost use Rattle.convoy.specs.PageLaws.Rides.{pages_on};

use crate::page_laws::journeys_along_next;
use lc_model::{Connections, Query, Runs, StopsDoc};

/// The needed pages of a question are one list.
pub fn one_list_of_needed()
    ensures { OneListOfNeeded }
{}

/// A client that takes page after page until what it took shows that it is over takes exactly the needed pages.
pub fn needed_are_taken()
    ensures over_is_over { OverIsOver }
    ensures takes_the_needed { TakesTheNeeded }
    ensures always_stops { AlwaysStops }
{}

/// A client that takes exactly these pages takes the needed ones for the journeys of a timetable.
pub fn needed_of_journeys(runs: &Runs, list: &Connections, query: &Query, doc: &StopsDoc)
    requires forward { All (λ (run : RunValue). GoesForward run.calls) runs.now }
    requires connections { AreConnectionsOf runs.now list.now }
    ensures { (first : CutPage) (rest taken needed : List CutPage) → ArePagesOf list.now first rest
        → AreNeeded (IsRideAt runs.now) query.now doc.now first rest needed → IsTakenUntilOver query.now doc.now (pages_on first rest query.now) taken
        → taken ≡ needed }
{
    let _list = list.as_slice();
    journeys_along_next(runs, list, query, doc);
}
