/// What is at the front of the bytes that have come on a connection.
#[derive(Clone, Copy, PartialEq, Eq)]
pub enum Taken {
    /// One whole request of so many bytes.
    Whole { length: usize },
    /// Less than a whole request.
    NotYet,
    /// A head that is refused with this status of HTTP.
    Refused { status: u16 },
}
