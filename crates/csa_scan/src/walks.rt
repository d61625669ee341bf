ghost use Rattle.std.specs.Prelude.{◌≡◌, length};
ghost use Rattle.csa_scan.specs.Near.{AreWithin};

use crate::near::{nearest, walk_at};
use crate::side::Side;
use crate::trace::Near;
use lc_model::{Journey, NoMemory, Query, Ride, Rides, Stop, StopsDoc};
use std::alloc::Global;

/// The walks before the first ride and after the last one, by the place of the stop where it boards or alights.
#[derive(Drop)]
pub struct Walks {
    pub starts: Vec<Option<Near>>,
    pub ends: Vec<Option<Near>>,
    pub ghost one_each: { length ends.items ≡ length starts.items },
    pub ghost starts_within: { AreWithin starts.items },
    pub ghost ends_within: { AreWithin ends.items },
}

impl Walks {
    ghost use Rattle.std.specs.Prelude.{◌≡◌, ◌≢◌, [], IfOk, length};
    ghost use Rattle.lc_model.specs.Journey.{alight_of, board_of};
    ghost use Rattle.lc_model.specs.Stop.{InStopOrder};
    ghost use Rattle.csa_scan.specs.Near.{IsWalkAt};
    ghost use Rattle.csa_scan.specs.Walks.{AreWalks};
    ghost use Rattle.csa_scan.specs.declared.side.Side.TheVariants.{After, Before};

    /// Those of a question. Linear in the stops and the changes, times the logarithm of the stops.
    pub fn new(alloc: Global, query: &Query, doc: &StopsDoc) -> Result<Walks, NoMemory>
        ensures { IfOk result (AreWalks query.now doc.now) }
    {
        Ok(Walks {
            starts: nearest(alloc, Side::Before, doc, &query.from)?,
            ends: nearest(alloc, Side::After, doc, &query.to)?,
        })
    }

    /// The journey of these rides, with its walks. Takes the logarithm of the stops.
    pub fn journey(
        &self,
        alloc: Global,
        stops: &[Stop],
        rides: Vec<Ride>,
    ) -> Result<Journey, NoMemory>
        requires in_order { InStopOrder stops.now }
        requires one_each { length self.now.starts.items ≡ length stops.now }
        requires not_empty { rides.items ≢ [] }
        ensures rides { IfOk result (λ journey. journey.rides ≡ rides.items) }
        ensures before { IfOk result (λ journey. IsWalkAt Before stops.now self.now.starts.items (board_of rides.items) journey.before) }
        ensures after { IfOk result (λ journey. IsWalkAt After stops.now self.now.ends.items (alight_of rides.items) journey.after) }
    {
        let first = &rides[0];
        let last = &rides[rides.len() - 1];
        let starts = self.starts.as_slice();
        let before = walk_at(alloc, Side::Before, stops, starts, &first.board)?;
        let after = walk_at(
            alloc,
            Side::After,
            stops,
            self.ends.as_slice(),
            &last.alight,
        )?;
        Ok(Journey {
            before,
            rides: Rides::from_list(rides),
            after,
        })
    }
}
