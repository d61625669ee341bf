ghost use Rattle.std.specs.Prelude.{◌≡◌};
ghost use Rattle.lc_model.specs.Versions.Pages.{is_before};

use lc_model::{Calls, RunKey};

/// A run as it is over a span of versions: from the number at which it begins, and before the one at which it ends.
#[derive(Drop)]
pub(crate) struct State {
    pub(crate) key: RunKey,
    pub(crate) calls: Calls,
    pub(crate) begin: u32,
    pub(crate) end: Option<u32>,
}

fn is_before(end: Option<u32>, version: u32) -> bool
    ensures { result ≡ is_before end version }
{
    match end {
        Some(end) => version < end,
        None => true,
    }
}

impl State {
    ghost use Rattle.version_store.specs.Index.Spans.{holds};

    /// Whether the run holds in a version.
    pub(crate) fn holds(&self, version: u32) -> bool
        ensures { result ≡ holds version self.now }
    {
        self.begin <= version && is_before(self.end, version)
    }
}
