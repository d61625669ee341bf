ghost use Rattle.std.specs.Prelude.{◌+◌, None, Some};
ghost use Rattle.back_scan.specs.Forward.{forward_query};
ghost use Rattle.lc_model.specs.declared.answer.Answer.TheVariants.{NoJourney};
ghost use Rattle.timetable.specs.Tiny.{moment};
ghost use Rattle.lc_cli.specs.Tiny.{AreJourneyBy, worked};
ghost use Rattle.lc_cli.specs.WorkedQuestions.{AllLeaveAt, EndBest, EndFewest, EndFewestAtOneVersion, EndNotFewest, IsNoFewestEnd, LatestAlways, LatestNever, LeaveLatest, LeaveNotLatest, at_nine, at_ten, by_1010, by_831, by_a_second_before, direct, leaving_a_second_earlier, leaving_a_second_later};

use live_calls::live_without_news;

/// Of the small feed, the worked journey leaves latest of those that arrive by 08:31, by the definition that the headline of `arrive` cites. Each
/// wrong answer is refused.
pub fn worked_latest()
    ensures takes { LeaveLatest by_831 worked }
    ensures takes_one_departure { AllLeaveAt by_831 (moment 8 0) }
    ensures refuses_no_journey { LatestNever by_831 None }
    ensures refuses_a_later_departure { LeaveNotLatest by_831 leaving_a_second_later }
    ensures refuses_an_earlier_departure { LeaveNotLatest by_831 leaving_a_second_earlier }

    // One second before, the worked journey has not arrived, and no journey has.
    ensures refuses_after_the_moment { LeaveNotLatest by_a_second_before worked }
    ensures takes_none_before_the_moment { LatestAlways by_a_second_before None }

    // Of two journeys that arrive by the moment, the later one is taken. The earlier one is refused, though it arrives first.
    ensures takes_the_later_journey { LeaveLatest by_1010 at_ten }
    ensures has_an_earlier_journey { AreJourneyBy (forward_query by_1010) at_nine }
    ensures refuses_the_earlier_journey { LeaveNotLatest by_1010 at_nine }
{
    live_without_news();
}

/// Of the small feed with a direct trip, a client of the fewest rides ends with its one ride where that arrives as early as the worked journey, as
/// the headline of `fewest` has it. Where the trip arrives a second later, the client ends with the two rides of the worked journey.
pub fn worked_fewest()
    ensures takes_one_ride { EndFewest (moment 8 31) (direct (moment 8 31)) }

    // A ride more is refused, though it is a best journey, with which `ask` may end.
    ensures has_two_best_rides { EndBest (moment 8 31) worked }
    ensures refuses_a_ride_more { EndNotFewest (moment 8 31) worked }

    // An earlier arrival counts before fewer rides.
    ensures takes_two_rides { EndFewest (moment 8 31 + 1) worked }
    ensures refuses_a_ride_fewer { EndNotFewest (moment 8 31 + 1) (direct (moment 8 31 + 1)) }

    ensures refuses_no_journey { IsNoFewestEnd (moment 8 31) NoJourney }
    ensures refuses_other_versions { EndFewestAtOneVersion (moment 8 31) }
{
    live_without_news();
}
