use lc_model::PageName;

/// What a client asks for next.
#[derive(Clone, Copy, PartialEq, Eq)]
pub enum Want {
    /// The time gate (RFC 7089), for the moment at which the question leaves.
    Gate,
    /// The stops document.
    Stops,
    /// The page of this name.
    Page(PageName),
    /// Nothing: it has its outcome, or had no memory.
    Finished,
}
