ghost use Rattle.std.specs.Prelude.{◌≡◌, ◌≤◌, ◌++◌, [], ◌∷◌, OnOk, if◌then◌else◌};
ghost use Rattle.fragmenter.specs.Ways.{span_begins, span_cuts};

use crate::Fragmenter;
use lc_model::{Moment, NoMemory};
use std::alloc::Global;

/// The longest span of a page, in seconds: a day.
pub const LONGEST_SPAN: u32 = 86_400;

/// Cuts at the first departure of each span of so many seconds since 1970 in which something departs.
#[derive(Clone, Copy, PartialEq, Eq)]
pub struct BySpan {
    pub seconds: u32,
    pub ghost at_least: { 1 ≤ seconds },
    pub ghost at_most: { seconds ≤ 86_400 },
}

impl BySpan {
    // Whether a page begins at the departure, after the one before it.
    fn begins(self, before: Option<Moment>, departure: Moment) -> bool
        ensures { result ≡ span_begins self.seconds before departure }
    {
        let span = u64::from(self.seconds);
        match before {
            None => true,
            Some(before) => before.seconds() / span < departure.seconds() / span,
        }
    }

    // Cuts at the departure, if a page begins there.
    fn push_cut(
        self,
        cuts: &mut Vec<Moment>,
        before: Option<Moment>,
        departure: Moment,
    ) -> Result<(), NoMemory>
        ensures { OnOk result (cuts.new.items ≡ cuts.old.items ++ (if span_begins self.seconds before departure then departure ∷ [] else [])) }
    {
        if self.begins(before, departure) {
            cuts.push(departure)?;
        }
        Ok(())
    }
}

impl Fragmenter for BySpan {
    ghost cuts_of = { λ way departures. span_cuts way.seconds departures };

    fn cuts(&self, alloc: Global, departures: &[Moment]) -> Result<Vec<Moment>, NoMemory> {
        let mut cuts = Vec::new(alloc);
        let mut before = None;
        for departure in departures {
            self.push_cut(&mut cuts, before, *departure)?;
            before = Some(*departure);
        }
        Ok(cuts)
    }

    fn cuts_lawfully(&self) {}
}
