ghost use Rattle.std.specs.Prelude.{◌≡◌, ◌+◌, ◌<◌, ◌≤◌, ℕ, IfOk, length, slice_index};
ghost use Rattle.std.specs.List.{AllPairs, Contains};
ghost use Rattle.version_store.specs.Indexed.{IsNumberOf};
ghost use Rattle.version_store.specs.Rows.{AreDepartures, AreRows};
ghost use Rattle.version_store.specs.Store.{versions_of};

use crate::Store;
use lc_model::{Connections, Moment, NoMemory};
use std::alloc::Global;

/// The place of a version, of which the last possible one is given. Takes the logarithm of the versions.
fn number_in(versions: &[Moment], version: Moment, last: u32) -> u32
    requires rising { AllPairs (λ (x y : ℕ). x < y) versions.now }
    requires there { Contains versions.now version }
    requires last { length versions.now ≡ last + 1 }
    ensures inside { result < length versions.now }
    ensures is { slice_index versions.now result ≡ version }
{
    match versions.binary_search(&version) {
        Ok(number) => number_at_most(number, last),
        Err(_) => last,
    }
}

/// The number, or the last one.
fn number_at_most(number: usize, last: u32) -> u32
    ensures { number ≤ last → result ≡ number }
{
    if number <= last as usize {
        number as u32
    } else {
        last
    }
}

impl Store {
    /// The number of a version, by which the index knows it. Takes the logarithm of the versions.
    fn number_of(&self, version: Moment) -> u32
        requires { Contains (versions_of self.now) version }
        ensures { IsNumberOf self.now version result }
    {
        number_in(self.versions.as_slice(), version, self.index.newest())
    }

    /// The connections of a version that depart from a moment on, and before the other one where there is one, in departure
    /// order. It takes the time of a walk over the connections that depart then in any version, and of a sort of those of this one. The sort
    /// is one walk where runs were neither added nor changed.
    pub fn rows(
        &self,
        alloc: Global,
        version: Moment,
        from: Moment,
        to: Option<Moment>,
    ) -> Result<Connections, NoMemory>
        requires { Contains (versions_of self.now) version }
        ensures { IfOk result (AreRows self.now version from to) }
    {
        let number = self.number_of(version);
        self.index.rows(alloc, number, from, to)
    }

    /// The departures of a version, one for each connection, in their order. It takes the time of a walk over the connections of all
    /// versions.
    pub fn departures(&self, alloc: Global, version: Moment) -> Result<Vec<Moment>, NoMemory>
        requires { Contains (versions_of self.now) version }
        ensures { IfOk result (λ departures. AreDepartures self.now version departures.items) }
    {
        let number = self.number_of(version);
        self.index.departures(alloc, number)
    }
}
