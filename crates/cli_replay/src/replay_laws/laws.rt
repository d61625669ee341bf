ghost use Rattle.cli_replay.specs.ReplayLaws.Laws.{FaultsAreOwn, OneHearing, PlaysCaused, PlaysHeard, PlaysRight};
ghost use Rattle.cli_replay.specs.ReplayLaws.OneCourse.{OneCourse};

use convoy::{agreement_begins, one_answer, steps_keep_agreement, turns_keep_agreement};
use lc_world::Link;
use version_store::one_outcome;

/// An event sequence that was played to its end over a quiet link was played rightly. Each client ended with a best journey by the
/// timetable of the version that it meant when it first asked, or with none.
pub fn courses_are_right<L: Link>()
    ensures { PlaysRight L.seen }
{
    steps_keep_agreement();
    agreement_begins();
    turns_keep_agreement::<L>();
}

/// Whatever a link replies whose side stays at a GET, its publisher heard the messages of an event sequence one after the other.
pub fn courses_are_heard<L: Link>()
    ensures { PlaysHeard L.seen }
{}

/// The lines of the messages are one, whatever the link is and however many pages are cached: neither changes what was heard.
pub fn one_hearing()
    ensures { OneHearing }
{
    one_outcome();
}

/// Whatever the link is, each client of an event sequence ended with a cause, which can be printed.
pub fn courses_are_caused<L: Link>()
    ensures { PlaysCaused L.seen }
{}

/// Two plays of one event sequence, in which no exchange failed, result in the same. There is one line for each message. Each client has one
/// version, one arrival or one refusal, and one number of exchanges. Nothing but the way of a journey is left open.
pub fn one_course()
    ensures { OneCourse }
{
    one_answer();
    one_outcome();
}

/// Over a clear link an exchange that failed ended its own client, with the counts of the link before and after it. No client is said to have
/// failed that did not, and none by the counts of another's failure.
pub fn faults_are_own()
    ensures { FaultsAreOwn }
{}
