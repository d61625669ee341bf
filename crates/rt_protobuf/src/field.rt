/// The greatest number of a field, 2^29 - 1 (Protocol Buffers, "Assigning Field Numbers").
pub const LAST_NUMBER: u64 = 536_870_911;

/// One field of a message: its number, what it holds, and the place of the first byte after it.
#[derive(Clone, Copy, PartialEq, Eq)]
pub struct Field {
    pub number: u32,
    pub value: Value,
    pub next: usize,
}

/// What a field holds, by its wire type. Bytes are known by the places of the first of them and after the last.
#[derive(Clone, Copy, PartialEq, Eq)]
pub enum Value {
    /// Wire type 0, with the bits above 64 dropped.
    Varint(u64),
    /// Wire type 1, the least byte first.
    Eight(u64),
    /// Wire type 2.
    Span { from: usize, to: usize },
    /// Wire type 5, the least byte first.
    Four(u32),
}
