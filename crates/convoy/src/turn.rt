/// What a client did at its turn.
#[derive(Clone, Copy, PartialEq, Eq)]
pub enum Turn {
    /// Nothing: it had its outcome before.
    Finished,
    /// It took a page from the cache.
    Cached,
    /// It made one exchange, which may have failed.
    Exchanged,
}
