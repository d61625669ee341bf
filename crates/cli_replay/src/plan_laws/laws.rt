ghost use Rattle.cli_replay.specs.PlanLaws.Laws.{OneClientAsks, PlanFaultsAreOwn, PlanRecordsReplies, PlansRight};
ghost use Rattle.cli_replay.specs.PlanLaws.OneGrowing.{OneGrowingPlan};
ghost use Rattle.cli_replay.specs.PlanLaws.OnePlan.{OnePlan};

use convoy::{
    agreement_begins, alone_asks_all, one_answer, steps_keep_agreement, turns_keep_agreement,
    versions_stay,
};
use lc_world::Link;

/// Over every honest link, also one whose side grows between exchanges, each client ended rightly. It has a best journey by the timetable
/// of the version that its own time gate exchange named, or none where there is none.
pub fn plans_are_right<L: Link>()
    ensures { PlansRight L.seen }
{
    steps_keep_agreement();
    agreement_begins();
    turns_keep_agreement::<L>();
}

/// Over an honest link an exchange that failed ended its own client, with the counts of the link before and after it.
pub fn plan_faults_are_own<L: Link>()
    ensures { PlanFaultsAreOwn L.seen }
{}

/// Over every honest link each reply that is recorded is that of the publisher's side at its exchange. Each side is a later one of those before.
pub fn plan_records_replies<L: Link>()
    ensures { PlanRecordsReplies L.seen }
{}

/// Two plans of the same events over quiet links with one side, in which no exchange failed, result in the same. Nothing but the way of a
/// journey is left open.
pub fn one_plan<L: Link, M: Link>()
    ensures { OnePlan L.seen M.seen }
{
    one_answer();
}

/// Two plans of the same events over links whose sides grow into one side result in the same. The time gates named equal versions, and no
/// exchange failed.
pub fn one_growing_plan<L: Link, M: Link>()
    ensures { OneGrowingPlan L.seen M.seen }
{
    one_answer();
    versions_stay();
}

/// Whatever the link is, a client that plans alone asked as the client of an `ask` does. Where the link records replies and hides none,
/// its version and its outcome are those that follow from what is recorded.
pub fn one_client_asks<L: Link>()
    ensures { OneClientAsks L.seen }
{
    alone_asks_all();
}
