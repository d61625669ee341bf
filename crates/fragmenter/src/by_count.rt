ghost use Rattle.std.specs.Prelude.{◌≡◌, ◌≤◌, ◌+◌, ◌^◌, ◌++◌, [], ◌∷◌, IfOk, OnOk, if◌then◌else◌};
ghost use Rattle.fragmenter.specs.Ways.{count_begins, count_cuts};

use crate::Fragmenter;
use lc_model::{Moment, NoMemory};
use std::alloc::Global;

/// The most connections that a page may be asked to have.
pub const MOST_CONNECTIONS: u32 = 1_000_000;

/// Cuts where a page has so many connections, before the next other departure.
#[derive(Clone, Copy, PartialEq, Eq)]
pub struct ByCount {
    pub count: u32,
    pub ghost at_least: { 1 ≤ count },
    pub ghost at_most: { count ≤ 1_000_000 },
}

impl ByCount {
    // Whether a page begins at the departure, after the one before it and a page of so many connections.
    fn begins(self, on_page: u64, before: Option<Moment>, departure: Moment) -> bool
        ensures { result ≡ count_begins self.count on_page before departure }
    {
        match before {
            None => true,
            Some(before) => u64::from(self.count) <= on_page && before != departure,
        }
    }

    // Cuts at the departure, if a page begins there. How many connections the page has with that of the departure.
    fn push_cut(
        self,
        cuts: &mut Vec<Moment>,
        on_page: u64,
        before: Option<Moment>,
        departure: Moment,
    ) -> Result<u64, NoMemory>
        requires { on_page + 1 ≤ 2 ^ 63 }
        ensures cut { OnOk result (cuts.new.items ≡ cuts.old.items ++ (if count_begins self.count on_page before departure then departure ∷ [] else [])) }
        ensures on_page { IfOk result (λ now. now ≡ (if count_begins self.count on_page before departure then 1 else on_page + 1)) }
    {
        if self.begins(on_page, before, departure) {
            cuts.push(departure)?;
            return Ok(1);
        }
        Ok(on_page + 1)
    }
}

impl Fragmenter for ByCount {
    ghost cuts_of = { λ way departures. count_cuts way.count departures };

    fn cuts(&self, alloc: Global, departures: &[Moment]) -> Result<Vec<Moment>, NoMemory> {
        let mut cuts = Vec::new(alloc);
        let mut before = None;
        let mut on_page = 0;
        for departure in departures {
            on_page = self.push_cut(&mut cuts, on_page, before, *departure)?;
            before = Some(*departure);
        }
        Ok(cuts)
    }

    fn cuts_lawfully(&self) {}
}
