ghost use Rattle.std.specs.Prelude.{◌≡◌, IfOk, IfSome, option_map};
ghost use Rattle.lc_world.specs.Sides.PageAt.{named as named_there};
ghost use Rattle.std.specs.List.{Contains};
ghost use Rattle.page_json.specs.Valid.{IsValidPage};
ghost use Rattle.publisher.specs.Cuts.{HasCuts};
ghost use Rattle.publisher.specs.Held.{side_of};
ghost use Rattle.publisher.specs.PlaceOf.{IsPlaceOf};
ghost use Rattle.lc_world.specs.Sides.Response.{IsPageOf};
ghost use Rattle.version_store.specs.Store.{versions_of};

use crate::Publisher;
use crate::place::{Place, place_of};
use fragmenter::Fragmenter;
use lc_model::{Moment, NoMemory, PageName};
use page_json::Page;
use std::alloc::Global;

/// The page of a version that begins there, if a departure is named.
fn named(version: Moment, departs: Option<Moment>) -> Option<PageName>
    ensures { result ≡ option_map (named_there version) departs }
{
    match departs {
        None => None,
        Some(departs) => Some(PageName { version, departs }),
    }
}

impl<G: Fragmenter + Drop> Publisher<G> {
    /// Where the page for a moment of departure is among the cuts of a version, if these are cached. Takes their logarithm.
    fn cached_place(&mut self, version: Moment, departs: Moment) -> Option<Place>
        ensures place { IfSome result (IsPlaceOf (side_of G.cuts_of self.old) version departs) }
        ensures same { self.new ≡ self.old }
    {
        self.cutting.cuts_lawfully();
        let place = self.cuts.place(version, departs);
        let _few = self.cuts.len();
        place
    }

    /// Where the page for a moment of departure is at a version. It takes the time of the store's departures where the cuts of the
    /// version are not cached, and else the logarithm of the cuts.
    pub(crate) fn place(
        &mut self,
        alloc: Global,
        version: Moment,
        departs: Moment,
    ) -> Result<Place, NoMemory>
        requires { Contains (versions_of self.old.store) version }
        ensures place { IfOk result (IsPlaceOf (side_of G.cuts_of self.old) version departs) }
        ensures same { self.new ≡ self.old }
    {
        match self.cached_place(version, departs) {
            Some(place) => Ok(place),
            None => self.new_place(alloc, version, departs),
        }
    }

    /// Where the page for a moment of departure is among the cuts of a version, which are made and cached.
    fn new_place(
        &mut self,
        alloc: Global,
        version: Moment,
        departs: Moment,
    ) -> Result<Place, NoMemory>
        requires { Contains (versions_of self.old.store) version }
        ensures place { IfOk result (IsPlaceOf (side_of G.cuts_of self.old) version departs) }
        ensures same { self.new ≡ self.old }
    {
        let cuts = self.made_cuts(alloc, version)?;
        self.cutting.cuts_lawfully();
        let place = place_of(cuts.as_slice(), departs);
        self.cuts.put(version, cuts)?;
        let _few = self.cuts.len();
        Ok(place)
    }

    /// The cuts of a version, made of the store's departures. It takes the time of these.
    fn made_cuts(&self, alloc: Global, version: Moment) -> Result<Vec<Moment>, NoMemory>
        requires { Contains (versions_of self.now.store) version }
        ensures { IfOk result (λ cuts. HasCuts (side_of G.cuts_of self.now) version cuts.items) }
    {
        let departures = self.store.departures(alloc, version)?;
        let cuts = self.cutting.cuts(alloc, departures.as_slice())?;
        Ok(cuts)
    }

    /// The page for a moment of departure at a version, as it is published. It takes the time of its place and of the store's
    /// rows.
    pub(crate) fn page(
        &mut self,
        alloc: Global,
        version: Moment,
        departs: Moment,
    ) -> Result<Page, NoMemory>
        requires { Contains (versions_of self.old.store) version }
        ensures page { IfOk result (IsPageOf (side_of G.cuts_of self.old) version departs) }
        ensures valid { IfOk result IsValidPage }
        ensures same { self.new ≡ self.old }
    {
        let place = self.place(alloc, version, departs)?;
        self.page_there(alloc, version, departs, place)
    }

    /// The page at a place. It takes the time of the store's rows.
    fn page_there(
        &self,
        alloc: Global,
        version: Moment,
        departs: Moment,
        place: Place,
    ) -> Result<Page, NoMemory>
        requires version { Contains (versions_of self.now.store) version }
        requires place { IsPlaceOf (side_of G.cuts_of self.now) version departs place }
        ensures page { IfOk result (IsPageOf (side_of G.cuts_of self.now) version departs) }
        ensures valid { IfOk result IsValidPage }
    {
        let list = self.store.rows(alloc, version, place.cut, place.next)?;
        let _forward = list.as_slice();
        Ok(Page {
            name: PageName {
                version,
                departs: place.cut,
            },
            next: named(version, place.next),
            previous: named(version, place.previous),
            list,
        })
    }
}
