/// What a session is after a piece.
#[derive(Clone, Copy, PartialEq, Eq)]
pub enum Fed {
    /// It waits for more bytes.
    More,
    /// It gave its last reply: no bytes that follow have one.
    Ended,
}
