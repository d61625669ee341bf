/// Why no zone was found.
#[derive(Clone, Copy)]
pub(crate) enum ZoneEnd {
    /// The word says none.
    Wrong,
    /// It failed to read the file that the word names.
    Failed,
    NoMemory,
}
