ghost use Rattle.rounds_client.specs.Ends.ReplyLaws.{FewestByItsReplies, OneFewestByReplies};

use lc_world::Link;

/// A client of the fewest rides ends by the replies that it got, whatever the link is. It asks as a client that asks alone. Where that has a
/// best journey of the pages that the replies say, its own has the fewest rides of them.
pub fn fewest_by_its_replies<L: Link>()
    ensures { FewestByItsReplies L.seen }
{}

/// By the replies that it got a client of the fewest rides ends in one way. The version is one, and so is the number of exchanges. There is one
/// arrival by one number of rides or none, or one refusal, or one reply that fails one test, or the last exchange failed.
pub fn one_fewest_by_replies<L: Link, M: Link>()
    ensures { OneFewestByReplies L.seen M.seen }
{}
