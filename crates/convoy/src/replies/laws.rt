ghost use Rattle.convoy.specs.Replies.CachedLaws.{CacheIsOne, CapacityIsBound, WrongPageIsNotPut};
ghost use Rattle.convoy.specs.Replies.Laws.{AloneAsksAll, FaultsAreAroundLast, GotIsRecorded, NoFaultIsShrunken, OneEnd, OneRecordedEnd};
ghost use Rattle.convoy.specs.Replies.Run.{EndsByItsReplies};

use lc_world::Link;

/// A client that asks alone ends by the replies that it got, whatever the link is. Its answer is a best one by the stops document and the
/// connections of the pages that these say. An unknown stop is one that the document lacks. A fault of the link comes
/// only where the link's count increased in that exchange. A reply that is called wrong fails the test that is named.
pub fn alone_over_any_link<L: Link>()
    ensures { EndsByItsReplies L.seen }
{}

/// By the replies that it got a client ends in one way. Each exchange has one want, and the version is one. There is one arrival or
/// none, or one refusal, or one reply that fails one test, or the last exchange failed.
pub fn one_end()
    ensures { OneEnd }
{}

/// Where a link records exchanges and hides none of their replies, it records what a client got, failures too. By what it records the client
/// ended in one way.
pub fn one_recorded_end<L: Link>()
    ensures got { GotIsRecorded }
    ensures end { OneRecordedEnd L.seen }
{}

/// Whoever is alone among the clients never wants a page twice. It made exchanges for all that it received, which are recorded: it has
/// asked as a client that asks alone.
pub fn alone_asks_all()
    ensures { AloneAsksAll }
{}

/// The counts of a fault of the link are those around the last exchange of a client that asks alone. The second is the link's count now. Shrunken
/// counts are refused.
pub fn faults_are_around_last<L: Link>()
    ensures around { FaultsAreAroundLast L.seen }
    ensures shrunken { NoFaultIsShrunken L.seen }
{}

/// What clients received determines the cached pages, with one capacity of the cache. Where a page is asked for again with room for
/// one page, it is not with room for two. Each is refused with the other capacity. A page to which the time gate was wrong to send is not cached.
pub fn cached_pages()
    ensures one { CacheIsOne }
    ensures bound { CapacityIsBound }
    ensures wrong { WrongPageIsNotPut }
{}
