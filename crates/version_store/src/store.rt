ghost use Rattle.std.specs.Prelude.{◌≡◌, ◌↔◌, [], All, IfOk, IsTrue, OnOk, if◌then◌else◌};
ghost use Rattle.std.specs.List.{Contains};
ghost use Rattle.lc_model.specs.Call.{InSequence};
ghost use Rattle.lc_model.specs.declared.run.Run.{Run as StatedRun};
ghost use Rattle.lc_model.specs.Versions.History.{IsRising, moments_of};
ghost use Rattle.lc_model.specs.Versions.Named.{is_by, version_named};
ghost use Rattle.version_store.specs.Store.{newest_of, versions_of};

use crate::force::Force;
use crate::index::Index;
use crate::indexed::base_index;
use lc_model::{Moment, NoMemory, Runs, Stops, Update};
use lc_time::Zone;
use std::alloc::Global;
use std::marker::Model;

/// A message that was admitted, and how many bytes it has.
#[derive(Drop)]
pub(crate) struct Admission {
    pub(crate) update: Update,
    pub(crate) bytes: usize,
}

/// A timetable and the messages that were admitted. Its versions are the base and one after each message. A contract sees
/// the runs and the stops of the feed, the zone, the moment of the base and the history without cuts.
#[derive(Drop)]
pub struct Store {
    pub(crate) runs: Runs,
    pub(crate) stops: Stops,
    pub(crate) zone: Zone,
    pub(crate) base: Moment,
    pub(crate) versions: Vec<Moment>,
    pub(crate) admitted: Vec<Admission>,
    pub(crate) bytes: usize,
    /// Where the entities in force in the newest version are.
    pub(crate) force: Force,
    /// The runs of each version, by its place in `versions`.
    pub(crate) index: Index,
}

impl Model for Store {
    ghost use Rattle.version_store.specs.Store.{Stored};

    ghost Value = { Stored };

    ghost use Rattle.version_store.specs.Inside.{IsKept, stored_of};

    ghost view = { stored_of };

    ghost invariant = { IsKept };
}

impl Store {
    /// The store of a timetable to which no message was admitted.
    pub fn new(
        alloc: Global,
        runs: Runs,
        stops: Stops,
        zone: Zone,
        base: Moment,
    ) -> Result<Store, NoMemory>
        ensures store { IfOk result (λ store. store ≡ record { runs = runs; stops = stops; zone = zone; base = base; history = [] }) }
        ensures calls { OnOk result (All (λ (run : StatedRun). InSequence run.calls) runs) }
    {
        let versions = vec![in alloc; base]?;
        let index = base_index(alloc, &runs)?;
        Ok(Store {
            runs,
            stops,
            zone,
            base,
            versions,
            admitted: Vec::new(alloc),
            bytes: 0,
            force: Force::new(alloc),
            index,
        })
    }

    /// All versions, the base first, then one after each message.
    pub fn versions(&self) -> &[Moment]
        ensures all { result.now ≡ versions_of self.now }
        ensures rising { IsRising self.now.base (moments_of self.now.history) }
    {
        self.versions.as_slice()
    }

    /// The newest version.
    pub fn newest(&self) -> Moment
        ensures { result ≡ newest_of self.now }
    {
        match self.versions.as_slice().last() {
            Some(version) => *version,
            None => self.base,
        }
    }

    /// Whether there is a version of this moment. Takes the logarithm of the versions.
    pub fn has(&self, version: Moment) -> bool
        ensures { IsTrue result ↔ Contains (versions_of self.now) version }
    {
        self.versions.as_slice().binary_search(&version).is_ok()
    }

    /// The version of a known moment: the last one at or before it, or the base where none is. Where no moment is known the
    /// newest (RFC 7089). Linear in the versions.
    pub fn named(&self, known: Option<Moment>) -> Moment
        ensures { result ≡ version_named self.now.base (moments_of self.now.history) known }
    {
        named_among(self.base, &self.versions[1..], known)
    }
}

fn is_by(known: &Option<Moment>, version: Moment) -> bool
    ensures { result ≡ is_by known.now version }
{
    match known {
        None => true,
        Some(known) => version <= *known,
    }
}

/// The version, if it is meant rather than the one before it.
fn meant(named: Moment, known: &Option<Moment>, version: Moment) -> Moment
    ensures { result ≡ (if is_by known.now version then version else named) }
{
    if is_by(known, version) {
        version
    } else {
        named
    }
}

fn named_among(base: Moment, later: &[Moment], known: Option<Moment>) -> Moment
    ensures { result ≡ version_named base later.now known }
{
    let mut named = base;
    'later: for version in later {
        named = meant(named, &known, *version);
    }
    named
}
