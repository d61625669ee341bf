/// Why serving ended before its end.
#[derive(Clone, Copy, PartialEq, Eq)]
pub enum ServeFault {
    /// The door failed. Its count of faults, at the start and now.
    Door { before: u64, after: u64 },
    /// The sink failed. Its count of faults, at the start and now.
    Sink { before: u64, after: u64 },
    NoMemory,
}
