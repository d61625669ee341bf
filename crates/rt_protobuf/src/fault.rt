/// What is wrong with a field. Its place is the offset of the field's tag.
#[derive(Clone, Copy, PartialEq, Eq)]
pub enum WireFault {
    /// The bytes end within the field.
    Cut { place: usize },
    /// The tenth byte of a varint has its top bit set.
    LongVarint { place: usize },
    /// A group begins or ends (wire types 3 and 4).
    Group { place: usize },
    /// The wire type is 6 or 7, or the number is 0 or above 536,870,911.
    BadField { place: usize },
}
