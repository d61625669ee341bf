use lc_model::{Bytes, Text};

/// What a link records of its reply.
#[derive(Drop)]
pub enum RecordedReply {
    /// It does not record whether there was one.
    Hidden,
    /// There was none: the exchange failed.
    Failed,
    /// There was this one.
    Reply(Bytes),
}

/// An exchange that a link records.
#[derive(Drop)]
pub struct Entry {
    /// Who was asked, as `host:port`.
    pub authority: Text,
    pub request: Bytes,
    pub reply: RecordedReply,
}
