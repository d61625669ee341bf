ghost use Rattle.std.specs.Prelude.{◌↔◌};
ghost use Rattle.std.specs.List.{All};
ghost use Rattle.lc_model.specs.Call.{GoesForward};
ghost use Rattle.lc_model.specs.Connection.{AreConnectionsOf};
ghost use Rattle.lc_model.specs.Journey.{IsJourney};
ghost use Rattle.lc_model.specs.Leg.{IsChain};
ghost use Rattle.lc_model.specs.Ride.{IsRideAt};
ghost use Rattle.lc_model.specs.declared.journey.Journey.{Journey as JourneyValue};
ghost use Rattle.lc_model.specs.declared.run.Run.{Run as RunValue};
ghost use Rattle.convoy.specs.PageLaws.Least.{SomeLeastArrival};

use lc_model::{Connections, Query, Runs, StopsDoc};

/// The chains of the connections of a timetable are its journeys, with the walks before and after them.
pub fn chains_are_journeys(runs: &Runs, list: &Connections, query: &Query, doc: &StopsDoc)
    requires forward { All (λ (run : RunValue). GoesForward run.calls) runs.now }
    requires connections { AreConnectionsOf runs.now list.now }
    ensures { (journey : JourneyValue) → IsChain query.now doc.now list.now journey
        ↔ IsJourney (IsRideAt runs.now) query.now doc.now journey }
{
    let _runs = runs.as_slice();
}

/// A question has a least arrival of its journeys, or there is no journey. What is said of a least arrival is thus said of something.
pub fn some_least_arrival()
    ensures { SomeLeastArrival }
{}
