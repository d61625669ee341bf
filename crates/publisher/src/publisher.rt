ghost use Rattle.std.specs.Prelude.{◌≡◌, [], All, IfOk, OnOk};
ghost use Rattle.lc_model.specs.Call.{InSequence};
ghost use Rattle.lc_model.specs.declared.run.Run.{Run as RunSaid};
ghost use Rattle.page_json.specs.Sound.{IsSoundDoc};
ghost use Rattle.page_json.specs.Tree.{stops_text_of};
ghost use Rattle.publisher.specs.Held.{side_of};
ghost use Rattle.lc_world.specs.Sides.Side.{IsValidSide, newest_of};

use crate::Options;
use crate::cut_cache::CutCache;
use crate::kept::{doc_is_valid, runs_are_in_order};
use connection_uri::Base;
use fragmenter::Fragmenter;
use lc_model::{Moment, NoMemory, PlainData, Runs, StopsDoc};
use lc_time::Zone;
use page_json::stops_text;
use std::alloc::Global;
use std::marker::Model;
use version_store::Store;

/// A publisher of a timetable with its versions as pages. A contract sees the way in which it cuts, its store, its stops
/// document, its base, and whether it takes messages. Beside these it keeps the text of the document, and caches the cuts of versions.
#[derive(Drop)]
pub struct Publisher<G: Fragmenter + Drop> {
    pub(crate) cutting: G,
    pub(crate) store: Store,
    pub(crate) doc: StopsDoc,
    pub(crate) options: Options,
    pub(crate) cuts: CutCache,
    pub(crate) stops_text: Vec<u8>,
}

impl<G: Fragmenter + Drop> Model for Publisher<G> {
    ghost use Rattle.publisher.specs.Held.{Held};

    ghost Value = { Held G };

    ghost use Rattle.publisher.specs.Inside.{IsKept, held_of};

    ghost view = { held_of };

    ghost invariant = { IsKept G.cuts_of };
}

/// The store of a timetable, with the stops of its document. It sorts the connections, so it takes n log n for n of them.
fn store_of(
    alloc: Global,
    runs: Runs,
    doc: &StopsDoc,
    zone: Zone,
    base_moment: Moment,
) -> Result<Store, NoMemory>
    ensures store { IfOk result (λ store. store ≡ record { runs = runs; stops = doc.now.stops; zone = zone; base = base_moment; history = [] }) }
    ensures calls { OnOk result (All (λ (run : RunSaid). InSequence run.calls) runs) }
{
    let stops = doc.stops.copy(alloc)?;
    let store = Store::new(alloc, runs, stops, zone, base_moment)?;
    Ok(store)
}

/// What a publisher has beside its store: no cuts yet, and the text of its stops document.
#[derive(Drop)]
struct Made {
    cuts: CutCache,
    stops_text: Vec<u8>,
}

/// Linear in the document.
fn made_of(alloc: Global, base: &Base, doc: &StopsDoc) -> Result<Made, NoMemory>
    ensures cuts { IfOk result (λ made. made.cuts ≡ []) }
    ensures text { IfOk result (λ made. made.stops_text.items ≡ stops_text_of base.now doc.now) }
    ensures sound { OnOk result (IsSoundDoc doc.now) }
{
    let stops_text = stops_text(alloc, base, doc)?;
    let cuts = CutCache::new(alloc)?;
    Ok(Made { cuts, stops_text })
}

impl<G: Fragmenter + Drop> Publisher<G> {
    /// The publisher of a timetable to which no message was admitted. It sorts the connections, so it takes n log n for n of them. It is linear in
    /// the stops.
    pub fn new(
        alloc: Global,
        runs: Runs,
        doc: StopsDoc,
        zone: Zone,
        base_moment: Moment,
        cutting: G,
        options: Options,
    ) -> Result<Publisher<G>, NoMemory>
        ensures { IfOk result (λ publisher. publisher ≡ record {
          cutting = cutting;
          store = record { runs = runs; stops = doc.stops; zone = zone; base = base_moment; history = [] };
          doc = doc;
          base = options.base;
          accepts_updates = options.accept_updates;
        }) }
    {
        let made = made_of(alloc, &options.base, &doc)?;
        Publisher::with_store(alloc, runs, doc, zone, base_moment, cutting, options, made)
    }

    /// The publisher with what was made of its document, and with the store of its runs.
    fn with_store(
        alloc: Global,
        runs: Runs,
        doc: StopsDoc,
        zone: Zone,
        base_moment: Moment,
        cutting: G,
        options: Options,
        made: Made,
    ) -> Result<Publisher<G>, NoMemory>
        requires cuts { made.cuts ≡ [] }
        requires text { made.stops_text.items ≡ stops_text_of options.base doc }
        requires sound { IsSoundDoc doc }
        ensures { IfOk result (λ publisher. publisher ≡ record {
          cutting = cutting;
          store = record { runs = runs; stops = doc.stops; zone = zone; base = base_moment; history = [] };
          doc = doc;
          base = options.base;
          accepts_updates = options.accept_updates;
        }) }
    {
        runs_are_in_order(&runs);
        let store = store_of(alloc, runs, &doc, zone, base_moment)?;
        let Made { cuts, stops_text } = made;
        Ok(Publisher {
            cutting,
            store,
            doc,
            options,
            cuts,
            stops_text,
        })
    }

    /// The newest version.
    pub fn newest(&self) -> Moment
        ensures { result ≡ newest_of (side_of G.cuts_of self.now) }
    {
        self.store.newest()
    }

    /// The side that a publisher stands for is valid, and its store and its document have the same stops. A law: the call does nothing.
    pub fn side_is_valid(&self)
        ensures valid { IsValidSide (side_of G.cuts_of self.now) }
        ensures stops { self.now.store.stops ≡ self.now.doc.stops }
    {
        self.cutting.cuts_lawfully();
        doc_is_valid(&self.doc);
        let _base = self.options.base.text();
        let _versions = self.store.versions();
    }
}
