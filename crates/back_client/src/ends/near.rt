ghost use Rattle.back_client.specs.Ends.Near.{NotAnotherVersion, NotEarlier, NotNone, NotOneExchangeMore, NotOnePageLess, NotOnePageMore};

use lc_world::Link;

/// What is near a right end is none. It refuses a journey that leaves earlier than another, and no journey where there is one. It refuses a
/// page more or less, an exchange more, and another version.
pub fn near_ends_are_wrong<L: Link>()
    ensures earlier { NotEarlier L.seen }
    ensures none { NotNone L.seen }
    ensures page_more { NotOnePageMore }
    ensures page_less { NotOnePageLess }
    ensures exchange_more { NotOneExchangeMore L.seen }
    ensures version { NotAnotherVersion L.seen }
{}
