ghost use Rattle.std.specs.Prelude.{ℕ, None, Some, List, [], ◌∷◌};
ghost use Rattle.lc_model.specs.declared.answer.Answer.TheVariants.{NoJourney};
ghost use Rattle.lc_model.specs.declared.answer.Answer.TheVariants as answers;
ghost use Rattle.lc_model.specs.declared.journey.Journey.{Journey as JourneyValue};
ghost use Rattle.lc_model.specs.declared.query.Query.{Query as QueryValue};
ghost use Rattle.lc_model.specs.declared.ride.Ride.{Ride as RideValue};
ghost use Rattle.lc_cli.specs.NearHeadline.{EndAtOneVersion, EndAtTheBase, EndAtTheMessage, IsBestEnd, IsNoBestEnd, within};
ghost use Rattle.lc_cli.specs.NearPlan.{IsBestPlan, IsNoBestPlan, NotWithoutGate, PlanAfterTheMessage, PlanAtOneVersion, PlanBeforeTheMessage};
ghost use Rattle.lc_cli.specs.Tiny.{AnswersNever, AreJourneyBy, AreRefused, AreTaken, IsMadeOf, MakeJourneys, a_second_late, from_a_to_d, in_place, nine_minutes_late, swapped, worked};

use lc_model::one_arrival;
use live_calls::live_without_news;

/// Of the small feed, the worked journey answers its question, and each wrong answer is refused.
pub fn worked_answer()
    ensures takes { AreTaken None worked }
    ensures refuses_no_journey { AnswersNever from_a_to_d NoJourney }
    ensures refuses_a_later_arrival { AreRefused None a_second_late }
    ensures refuses_swapped_rides { AreRefused None swapped }
    ensures has_a_later_journey { AreJourneyBy from_a_to_d nine_minutes_late }
    ensures refuses_a_later_journey { AreRefused None nine_minutes_late }

    // A walk from a stop to itself is no walk, however short it is.
    ensures refuses_a_walk_in_place { (seconds : ℕ) → AreRefused (Some (in_place seconds)) worked }

    // Rides make a journey, of which the clauses above speak, and no rides make none.
    ensures rides_make_journeys { (first : RideValue) (rest : List RideValue) → MakeJourneys (first ∷ rest) }
    ensures no_rides_make_none { ¬ MakeJourneys [] }
{
    live_without_news();
    one_arrival();
}

/// Of the small feed, a client with the worked journey ends best, as the headline has it, and one that ends nearly so does not.
pub fn worked_end()
    ensures takes { (journey : JourneyValue) → IsMadeOf None worked None journey → IsBestEnd from_a_to_d (answers.Journey journey) }

    // No other version will do, though the journey is an answer at each.
    ensures refuses_other_versions { (query : QueryValue) → EndAtOneVersion query }

    // After a message, an older version will not do for who knows the message, nor its version for who does not.
    ensures refuses_older_versions { EndAtTheMessage }
    ensures refuses_newer_versions { EndAtTheBase }

    // A later journey will not do, though it is within the horizon.
    ensures refuses_a_later_journey { (journey : JourneyValue) → IsMadeOf None nine_minutes_late None journey → IsNoBestEnd from_a_to_d (answers.Journey journey) }

    // Where the horizon is one second too short, the worked journey will not do, and no journey will.
    ensures refuses_after_the_horizon { (journey : JourneyValue) → IsMadeOf None worked None journey → IsNoBestEnd (within 1_859) (answers.Journey journey) }
    ensures takes_none_within_the_horizon { IsBestEnd (within 1_859) NoJourney }
{
    live_without_news();
    one_arrival();
}

/// Of publishers of the small feed, a client of `plan` with the worked journey ends best, as the headline of `plan` has it. One whose end is
/// only near does not.
pub fn worked_plan()
    ensures takes { (journey : JourneyValue) → IsMadeOf None worked None journey → IsBestPlan from_a_to_d (answers.Journey journey) }

    // No other version will do, though the journey is an answer at each.
    ensures refuses_other_versions { (query : QueryValue) → PlanAtOneVersion query }

    // Where a message comes while clients plan, the version is that of the client's own time gate exchange.
    ensures refuses_newer_versions { PlanBeforeTheMessage }
    ensures refuses_older_versions { PlanAfterTheMessage }
    ensures refuses_no_gate { NotWithoutGate }

    // A later journey will not do, though it is within the horizon.
    ensures refuses_a_later_journey { (journey : JourneyValue) → IsMadeOf None nine_minutes_late None journey → IsNoBestPlan from_a_to_d (answers.Journey journey) }

    // Where the horizon is one second too short, the worked journey will not do, and no journey will.
    ensures refuses_after_the_horizon { (journey : JourneyValue) → IsMadeOf None worked None journey → IsNoBestPlan (within 1_859) (answers.Journey journey) }
    ensures takes_none_within_the_horizon { IsBestPlan (within 1_859) NoJourney }
{
    live_without_news();
    one_arrival();
}
