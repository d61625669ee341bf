ghost use Rattle.rounds_client.specs.Ends.Near.{NotAnotherVersion, NotNone, NotOneExchangeMore, NotOneRideFewer, NotOneRideMore};

use crate::ends::fewest_at_version;
use convoy::one_answer;
use lc_world::Link;

/// What is near a right end is none: a ride more or less, no journey, an exchange more, or another version.
pub fn near_ends_are_wrong<L: Link>()
    ensures ride_more { NotOneRideMore L.seen }
    ensures ride_fewer { NotOneRideFewer L.seen }
    ensures none { NotNone L.seen }
    ensures exchange_more { NotOneExchangeMore L.seen }
    ensures version { NotAnotherVersion L.seen }
{
    one_answer();
    fewest_at_version();
}
