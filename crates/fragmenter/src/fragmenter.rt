ghost use Rattle.std.specs.Prelude.{◌≡◌, ℕ, List, IfOk};
ghost use Rattle.lc_model.specs.Versions.Cuts.{AreCuts, NeverFalls};

use lc_model::{Moment, NoMemory};
use std::alloc::Global;

/// A way to cut departures into pages.
pub trait Fragmenter {
    /// The cuts of departures: one list for each fragmenter and each list of departures.
    ghost cuts_of: { Self → List ℕ → List ℕ };

    /// The cuts of the departures. Linear in these.
    fn cuts(&self, alloc: Global, departures: &[Moment]) -> Result<Vec<Moment>, NoMemory>
        ensures { IfOk result (λ cuts. cuts.items ≡ cuts_of self.now departures.now) };

    /// Departures that never fall are cut lawfully. A law: the call does nothing.
    fn cuts_lawfully(&self)
        ensures { (departures : List ℕ) → NeverFalls departures → AreCuts departures (cuts_of self.now departures) };
}
