ghost use Rattle.std.specs.Prelude.{◌≡◌};
ghost use Rattle.gtfs_tables.specs.Calendars.Spans.{AreSpans};

use lc_model::{Id, NoMemory, PlainData, copy_each};
use std::alloc::Global;
use std::marker::Model;

/// A row of frequencies.txt: within a span of a service day a trip starts every so often.
#[derive(Drop)]
pub struct Frequency {
    pub trip: Id,
    /// The first start, in seconds from the start of the service day.
    pub from: u32,
    /// The end of the span, in seconds from the start of the service day.
    pub to: u32,
    /// From one start to the next, in seconds.
    pub headway: u32,
}

impl PlainData for Frequency {
    fn copy(&self, alloc: Global) -> Result<Frequency, NoMemory> {
        Ok(Frequency {
            trip: self.trip.copy(alloc)?,
            from: self.from,
            to: self.to,
            headway: self.headway,
        })
    }
}

/// The spans in which the trips of a feed start every so often, in the order of the file.
#[derive(Drop)]
pub struct Frequencies {
    items: Vec<Frequency>,
}

impl Model for Frequencies {
    ghost use Rattle.std.specs.Prelude.{List};
    ghost use Rattle.gtfs_tables.specs.Calendars.Spans.{AreSpans};
    ghost use Rattle.gtfs_tables.specs.declared.calendars.frequency.Frequency.{Frequency};

    ghost Value = { List Frequency };

    ghost view = { λ f. f.items.items };

    ghost invariant = { λ f. AreSpans f.items.items };
}

impl Frequencies {
    pub fn from_list(list: Vec<Frequency>) -> Frequencies
        requires { AreSpans list.items }
        ensures { result ≡ list.items }
    {
        Frequencies { items: list }
    }

    pub fn as_slice(&self) -> &[Frequency]
        ensures value { result.now ≡ self.now }
        ensures spans { AreSpans result.now }
    {
        self.items.as_slice()
    }
}

impl PlainData for Frequencies {
    fn copy(&self, alloc: Global) -> Result<Frequencies, NoMemory> {
        let items = copy_each(alloc, self.as_slice())?;
        Ok(Frequencies::from_list(items))
    }
}
