ghost use Rattle.std.specs.Prelude.{◌≡◌, ◌≤◌, [], length, IfOk, OnOk, OnErr, option_copied};
ghost use Rattle.std.specs.Borrow.{sem};

use lc_model::{Moment, NoMemory, PageName};
use lru::LruCache;
use page_json::Page;
use std::alloc::Global;
use std::marker::Model;
use std::num::NonZeroUsize;

/// The greatest capacity of a cache.
pub const MOST_PAGES: usize = 10_000;

/// What a page is cached by.
#[derive(Clone, Copy, PartialEq, Eq, Hash)]
struct Key {
    version: Moment,
    departs: Moment,
}

/// Pages by their names, so many at most. A page that is put in a full cache takes the place of the one that was used longest ago.
#[derive(Drop)]
pub struct PageCache {
    pages: LruCache<Key, Page>,
}

impl Model for PageCache {
    ghost use Rattle.std.specs.Prelude.{map};
    ghost use Rattle.page_client.specs.Kept.{Kept};

    ghost Value = { Kept };

    ghost use Rattle.page_client.specs.Inside.{AreKeyed};

    ghost view = { λ c. record { capacity = c.pages.cap; pages = map (λ e. e.1) c.pages.entries } };

    ghost invariant = { λ c. AreKeyed c.pages.entries };
}

impl PageCache {
    ghost use Rattle.page_client.specs.Kept.{IsWithin, page_named, with_put, with_used};
    ghost use Rattle.page_client.specs.Lending.{EndsUsed};

    /// A cache of so many pages at most, from 1 to 10,000.
    pub fn with_capacity(alloc: Global, count: usize) -> Result<PageCache, NoMemory>
        requires one { 1 ≤ count }
        requires most { count ≤ 10_000 }
        ensures { IfOk result (λ cache. cache ≡ record { capacity = count; pages = [] }) }
    {
        let count = NonZeroUsize::new(count).unwrap();
        Ok(PageCache {
            pages: LruCache::new(alloc, count)?,
        })
    }

    /// The page of this name, if it is cached. It is the most recently used one then. Takes a constant time on average.
    pub fn get(&mut self, name: PageName) -> Option<&Page>
        ensures* used { sem 𝓛 (EndsUsed self.entry name) }
        ensures page { option_copied result ≡ page_named self.old.pages name }
    {
        // The keys are distinct.
        let _held = self.pages.len();
        self.pages.get(&key_of(name))
    }

    /// Puts a page in front. Takes a constant time on average, and that of dropping a page.
    pub fn put(&mut self, page: Page) -> Result<(), NoMemory>
        ensures put { OnOk result (self.new ≡ record self.old { pages = with_put self.old page }) }
        ensures unchanged { OnErr result (self.new ≡ self.old) }
    {
        // The keys are distinct, and no more than the capacity.
        let _held = self.pages.len();
        self.pages.put(key_of(page.name), page)?;
        Ok(())
    }

    /// How many pages are cached.
    pub fn len(&self) -> usize
        ensures len { result ≡ length self.now.pages }
        ensures within { IsWithin self.now }
    {
        self.pages.len()
    }
}

fn key_of(name: PageName) -> Key
    ensures { result ≡ record { version = name.version; departs = name.departs } }
{
    Key {
        version: name.version,
        departs: name.departs,
    }
}
