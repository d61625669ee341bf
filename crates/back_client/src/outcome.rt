use lc_model::Moment;
use page_client::Outcome;

/// The end of a question for the latest departure. The version is the one that the time gate named; none before. The fault of a reply is
/// `PeerFault::Retreat` where its page has a previous link that does not lead back, or holds what departs no earlier than the page before.
#[derive(Drop)]
pub struct ArriveEnd {
    pub outcome: Outcome,
    pub version: Option<Moment>,
    /// How many exchanges were made, one that failed too.
    pub exchanges: u64,
}
