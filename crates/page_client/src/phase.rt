use lc_model::PageName;

/// What a client waits for. It begins at the time gate.
#[derive(Clone, Copy, PartialEq, Eq)]
pub enum Phase {
    /// It waits for the time gate.
    Gate,
    /// It waits for the stops document, and then for the page of this name, the one of the time gate.
    Stops(PageName),
    /// It waits for the page of this name.
    Page(PageName),
    /// It waits for nothing.
    Finished,
}
