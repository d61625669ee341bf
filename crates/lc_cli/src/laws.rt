ghost use Rattle.lc_cli.specs.Headline.{Headline, HeadlineOfPlan, HeadlineOfReplay};
ghost use Rattle.lc_cli.specs.HeadlineOfArrive.{HeadlineOfArrive};
ghost use Rattle.lc_cli.specs.HeadlineOfDrill.{HeadlineOfDrill};
ghost use Rattle.lc_cli.specs.HeadlineOfFewest.{HeadlineOfFewest};
ghost use Rattle.lc_cli.specs.HeadlineOfRelay.{HeadlineOfRelay};
ghost use Rattle.lc_cli.specs.Laws.{DoneIsClear, DoneIsPrinted, OneRun, OneStatus};
ghost use Rattle.lc_cli.specs.NearArrive.{NotAnotherOrder, NotEarlier, NotLater, NotNone, NotOneExchangeMore, NotVersion};
ghost use Rattle.lc_cli.specs.NearFewest.{NotAnotherVersion, NotNoJourney, NotOneRideFewer, NotOneRideMore};
ghost use Rattle.lc_cli.specs.OnePlan.{OneNamedPlan, OneQuietPlan};
ghost use Rattle.lc_cli.specs.OneRelay.{OneNamedRelay, OneQuietRelay};
ghost use Rattle.lc_cli.specs.OneServing.{BeginsFromIt, NotAnotherBase, NotMadeUp, NotUnasked, OneServing, OneSide};

use back_client::one_latest_answer;
use cli_ask::{one_fewest_output, one_latest_output, one_output};
use cli_replay::{one_course, one_growing_plan, one_plan, relays_plan_right};
use cli_serve::one_over_bytes;
use cli_words::one_command;
use journey_text::one_script;
use lc_world::Link;
use page_relay::Relay;
use rounds_client::fewest_at_version;
use timetable::{one_end, one_timetable};
use version_store::one_outcome;

/// A run of `ask` with status Done wrote a best journey at the version that its question means, or that there is none. A run of `replay` did so for
/// each client that asked, at the version that its question meant before its first turn. A run of `plan` over an honest link did so for each
/// client, at the version that its own time gate exchange named, and so did a run of `relay`. The sums of `drill` are over such journeys. A run
/// of `fewest` wrote one of the fewest rides of all best journeys. A run of `arrive` wrote one that leaves as late as any, after exactly the needed
/// pages back.
pub fn headline<L: Link>()
    ensures ask { Headline L.seen }
    ensures replay { HeadlineOfReplay L.seen }
    ensures plan { HeadlineOfPlan L.seen }
    ensures drill { HeadlineOfDrill L.seen }
    ensures fewest { HeadlineOfFewest L.seen }
    ensures arrive { HeadlineOfArrive L.seen }
    ensures relay { HeadlineOfRelay L.seen }
{
    one_command();
    one_timetable();
    one_outcome();
    relays_plan_right::<L>();
}

/// What is near the end that `fewest` writes is refused: a ride more or less, no journey, another version.
pub fn near_fewest()
    ensures ride_more { NotOneRideMore }
    ensures ride_fewer { NotOneRideFewer }
    ensures none { NotNoJourney }
    ensures version { NotAnotherVersion }
{
    fewest_at_version();
}

/// What is near the end that `arrive` writes is refused: a journey that leaves earlier or later, no journey, another version, an exchange more
/// or less, the needed pages in another order.
pub fn near_arrive()
    ensures earlier { NotEarlier }
    ensures later { NotLater }
    ensures none { NotNone }
    ensures version { NotVersion }
    ensures exchange { NotOneExchangeMore }
    ensures order { NotAnotherOrder }
{
    one_latest_answer();
}

/// Runs of equal arguments over equal files, which nothing hindered, print one output: equal counts, or equal lines of messages. Clients have
/// one version, one arrival and one number of exchanges, and journeys of `fewest` have as many rides. Those of `arrive` leave at one moment,
/// and may arrive at others. Those of `drill` print one text. It speaks of the commands that ask an in-process publisher, or none.
pub fn one_run<L: Link, M: Link>()
    ensures { OneRun L.seen M.seen }
{
    one_command();
    one_timetable();
    one_outcome();
    one_script();
    one_course();
    one_output::<L, M>();
    one_fewest_output::<L, M>();
    one_latest_output::<L, M>();
}

/// Runs of equal arguments over equal files, which nothing hindered, end with one status, memory apart. They ask an in-process publisher
/// or none. Of each command, a run that is done printed its output or served its connections, and nothing hindered it.
pub fn one_status<L: Link, M: Link>()
    ensures one { OneStatus L.seen M.seen }
    ensures printed { DoneIsPrinted L.seen }
    ensures clear { DoneIsClear L.seen }
{
    one_command();
    one_timetable();
    one_end();
    one_outcome();
    one_script();
    one_course();
    one_output::<L, M>();
    one_fewest_output::<L, M>();
    one_latest_output::<L, M>();
}

/// Runs of `plan` with equal arguments over equal files print one output, where no exchange failed. The links are quiet with one side, or have
/// sides that grow into one, where the time gates named one version to each client.
pub fn one_planned<L: Link, M: Link>()
    ensures quiet { OneQuietPlan L.seen M.seen }
    ensures named { OneNamedPlan L.seen M.seen }
{
    one_command();
    one_script();
    one_plan::<L, M>();
    one_growing_plan::<L, M>();
}

/// And runs of `relay` do, but for how many exchanges were handed on, which the line of the counts says last.
pub fn one_relayed<L: Link, M: Link>()
    ensures quiet { OneQuietRelay L.seen M.seen }
    ensures named { OneNamedRelay L.seen M.seen }
{
    one_command();
    one_script();
    relays_plan_right::<L>();
    relays_plan_right::<M>();
    one_plan::<Relay<L>, Relay<M>>();
    one_growing_plan::<Relay<L>, Relay<M>>();
}

/// By recorded files a command begins from one side: that to which `ask`, `fewest` or `arrive` puts its question, and that which `serve` publishes
/// first. Other sides are refused: with a message that no argument names, with messages taken unasked, or with another base version.
pub fn one_side<L: Link>()
    ensures one { OneSide }
    ensures begins { BeginsFromIt L.seen }
    ensures made_up { NotMadeUp }
    ensures unasked { NotUnasked }
    ensures base { NotAnotherBase }
{
    one_timetable();
    one_outcome();
}

/// Runs of `serve` with equal arguments over equal files send the same on each connection and write one text. Equal bytes wait at their
/// doors and nothing fails.
pub fn one_served<L: Link, M: Link>()
    ensures { OneServing L.seen M.seen }
{
    one_command();
    one_timetable();
    one_outcome();
    one_over_bytes();
}
