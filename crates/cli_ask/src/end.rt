use lc_model::Moment;
use page_client::Outcome;

/// How a client ended.
#[derive(Drop)]
pub struct ClientEnd {
    /// The version that the time gate named to it. None where no time gate was asked, or its reply does not pass.
    pub version: Option<Moment>,
    pub outcome: Outcome,
    /// How many exchanges it made, a failed one too.
    pub exchanges: u64,
}
