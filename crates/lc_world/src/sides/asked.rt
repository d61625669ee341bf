use http_text::Allow;

/// What a request asks a publisher for, by its path and its method.
#[derive(Clone, Copy, PartialEq, Eq)]
pub enum Asked {
    /// The time gate: the page for a moment, at the version that is chosen.
    Gate,
    /// The page for a moment at a version.
    Page,
    /// The stops document.
    Stops,
    /// That a message is admitted.
    Update,
    /// A resource that has only other methods.
    OtherMethod(Allow),
    /// Nothing that is there.
    Nothing,
}
