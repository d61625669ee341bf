use crate::SentRequest;
use std::snapshot::Snapshot;

/// An exchange that was asked for, whether a reply came, and which.
#[derive(Drop)]
pub(crate) struct Recorded {
    pub(crate) sent: Snapshot<SentRequest>,
    pub(crate) came: bool,
    pub(crate) reply: Snapshot<Vec<u8>>,
}
