ghost use Rattle.back_client.specs.Ends.ReplyLaws.{LatestByItsReplies, LatestFaultsAreAroundLast, NoLatestFaultIsShrunken, OneLatestByReplies};

use lc_world::Link;

/// A question for the latest departure ends by the replies that it got, whatever the link is. Its answer is a latest chain by the stops
/// document and the connections of the pages that these say. An unknown stop is one that the document lacks. A fault of the link comes only
/// where the link's count increased in that exchange. A reply that is called wrong fails the test that is named, and none before it.
pub fn latest_by_its_replies<L: Link>()
    ensures { LatestByItsReplies L.seen }
{}

/// By the replies that it got a question for the latest departure ends in one way. Each exchange has one want. The version is one, and so is the
/// number of exchanges. There is one departure or none, or one refusal, or one reply that fails one test, or the last exchange failed.
pub fn one_latest_by_replies<L: Link, M: Link>()
    ensures { OneLatestByReplies L.seen M.seen }
{}

/// The counts of a fault of the link are those around the last exchange of the question. The second is the link's count now. Shrunken counts are
/// refused.
pub fn latest_faults_are_around_last<L: Link>()
    ensures around { LatestFaultsAreAroundLast L.seen }
    ensures shrunken { NoLatestFaultIsShrunken L.seen }
{}
