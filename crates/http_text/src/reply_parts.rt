use lc_model::{Bytes, Moment, NoMemory, PlainData, Text};
use std::alloc::Global;

/// What a body is.
#[derive(Clone, Copy, PartialEq, Eq)]
pub enum BodyKind {
    /// A page of connections, `application/ld+json`.
    Page,
    /// The stops document, `application/json`.
    Stops,
}

/// The methods of a resource.
#[derive(Clone, Copy, PartialEq, Eq)]
pub enum Allow {
    /// `GET, HEAD`.
    Reading,
    /// `POST`.
    Posting,
}

/// The parts of a reply: one for each line of its head, and the body.
#[derive(Drop)]
pub struct ReplyParts {
    pub status: u16,
    pub kind: Option<BodyKind>,
    pub length: Option<u64>,
    /// The URL to ask next. The line `Vary: accept-datetime` is with it.
    pub location: Option<Text>,
    /// The moment of the version that is sent.
    pub memento: Option<Moment>,
    /// The URL of the resource of which versions are chosen.
    pub original: Option<Text>,
    pub allow: Option<Allow>,
    /// Whether the connection ends after the reply.
    pub close: bool,
    pub body: Bytes,
}

impl PlainData for ReplyParts {
    fn copy(&self, alloc: Global) -> Result<ReplyParts, NoMemory> {
        Ok(ReplyParts {
            status: self.status,
            kind: self.kind,
            length: self.length,
            location: self.location.copy(alloc)?,
            memento: self.memento,
            original: self.original.copy(alloc)?,
            allow: self.allow,
            close: self.close,
            body: self.body.copy(alloc)?,
        })
    }
}
