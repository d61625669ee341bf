ghost use Rattle.page_relay.specs.Laws.{ClientsAreKept, CountsAreLengths, CountsAreSince, FitsLater, LeavesBelow, NewIsHonest, NewIsQuiet, OneMemory, OneTranscript, OnlyDocuments};

use lc_world::Link;

/// What is kept after exchanges is one, and so are those that were handed on, as far as the link below does not hide how they ended.
pub fn one_memory()
    ensures { OneMemory }
{}

/// What a relay keeps of the replies of a side are documents, and each later side has the same replies (RFC 7089, section 1.1).
pub fn kept_replies_stay()
    ensures later { FitsLater }
    ensures documents { OnlyDocuments }
{}

/// A new relay is honest under each base under which the link below is, and quiet where that one is. That it stays so is said of each exchange.
pub fn new_relays_are_honest<L: Link>()
    ensures honest { NewIsHonest L.seen }
    ensures quiet { NewIsQuiet L.seen }
{}

/// To the requests of clients for pages and for the stops document replies are kept, and to those at the time gate none.
pub fn clients_are_kept()
    ensures { ClientsAreKept }
{}

/// After any calls a relay's own exchanges, its counts and what the link below has recorded are known by its transcript. Each transcript is that
/// of one relay.
pub fn counts_are_since<L: Link>()
    ensures since { CountsAreSince L.seen }
    ensures lengths { CountsAreLengths }
    ensures one { OneTranscript }
{}

/// What GETs by clients leave of a relay they leave of the link below: it has gone on, and an honest one is honest.
pub fn relays_leave_below<L: Link>()
    ensures { LeavesBelow L.seen }
{}
