ghost use Rattle.std.specs.Prelude.{◌≡◌, ◌≤◌, [], IfOk, OnErr, OnOk, length, nat_eq, option_map};
ghost use Rattle.std.specs.Map.{lookup};
ghost use Rattle.lru.specs.LruCache.{lru_cache, promoted, put_entries};
ghost use Rattle.publisher.specs.Cuts.{AllRise};
ghost use Rattle.publisher.specs.Place.{place_of};

use crate::place::{Place, place_of};
use lc_model::{Moment, NoMemory};
use lru::LruCache;
use std::alloc::Global;
use std::marker::Model;
use std::num::NonZeroUsize;

/// The most versions whose cuts are cached.
const MOST_VERSIONS: usize = 16;

/// The cuts of versions, the most recently used first, of 16 at most. A contract sees the list of the versions with their cuts.
#[derive(Drop)]
pub struct CutCache {
    cuts: LruCache<Moment, Vec<Moment>>,
}

impl Model for CutCache {
    ghost use Rattle.std.specs.Prelude.{◌≡◌, List, ℕ};
    ghost use Rattle.std.proofs.Common.{Global, Vec};

    ghost Value = { List (ℕ × Vec ℕ Global) };

    ghost view = { λ cache. cache.cuts.entries };

    ghost invariant = { λ cache. cache.cuts.cap ≡ 16 };
}

impl CutCache {
    pub fn new(alloc: Global) -> Result<CutCache, NoMemory>
        ensures { IfOk result (λ cache. cache ≡ []) }
    {
        let most = NonZeroUsize::new(MOST_VERSIONS).unwrap();
        Ok(CutCache {
            cuts: LruCache::new(alloc, most)?,
        })
    }

    /// The place of the page for a moment of departure, if the cuts of the version are cached. Those are the most recently used ones then.
    /// Takes the logarithm of the cuts.
    pub fn place(&mut self, version: Moment, departs: Moment) -> Option<Place>
        requires { AllRise self.old }
        ensures place { result ≡ option_map (λ cuts. place_of cuts.items departs) (lookup (nat_eq version) self.old) }
        ensures used { self.new ≡ promoted (nat_eq version) self.old }
    {
        let cuts = self.cuts.get(&version)?;
        Some(place_of(cuts.as_slice(), departs))
    }

    /// Puts the cuts of a version in front. Where 16 others are cached, those that were used longest ago are dropped.
    pub fn put(&mut self, version: Moment, cuts: Vec<Moment>) -> Result<(), NoMemory>
        ensures put { OnOk result (self.new ≡ put_entries nat_eq (lru_cache self.old 16) version cuts) }
        ensures unchanged { OnErr result (self.new ≡ self.old) }
    {
        self.cuts.put(version, cuts)?;
        Ok(())
    }

    /// Of how many versions the cuts are cached.
    pub fn len(&self) -> usize
        ensures len { result ≡ length self.now }
        ensures few { result ≤ 16 }
    {
        self.cuts.len()
    }
}
