ghost use Rattle.cli_ask.specs.LatestDeparture.Laws.{OneLatestOutput, SomeWanted};

use back_client::one_latest_answer;
use convoy::some_least_arrival;
use lc_world::Link;
use publisher::some_timetable;
use version_store::one_outcome;

/// What is printed of a question for the latest departure is one, but for the journey, where the replies come as the publisher gave
/// them. Journeys that may take each other's place leave at one moment.
pub fn one_latest_output<L: Link, M: Link>()
    ensures { OneLatestOutput L.seen M.seen }
{
    one_outcome();
    one_latest_answer();
}

/// At each version of a valid side a question for the latest departure wants some pages. What is said of all their names is thus said of
/// something.
pub fn some_wanted()
    ensures { SomeWanted }
{
    some_timetable();
    some_least_arrival();
}
