ghost use Rattle.cli_ask.specs.FewestRides.Laws.{OneFewestOutput};

use crate::one_output;
use lc_world::Link;
use rounds_client::fewest_at_version;
use version_store::one_outcome;

/// What is printed of a question for the fewest rides is one, but for the way of the journey, where the replies come as the publisher gave
/// them. Journeys that may take each other's place have as many rides.
pub fn one_fewest_output<L: Link, M: Link>()
    ensures { OneFewestOutput L.seen M.seen }
{
    one_output::<L, M>();
    one_outcome();
    fewest_at_version();
}
