/// Whether a session goes on.
#[derive(Clone, Copy, PartialEq, Eq)]
pub enum Phase {
    /// It waits for more bytes.
    Open,
    /// It gave its last reply: to a request that closes, to a refused head, or the hundredth.
    Ended,
    /// Memory ran out.
    Spent,
}
