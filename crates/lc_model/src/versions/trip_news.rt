use crate::versions::{StopNewsList, TripKind};
use crate::{Bytes, Items, NoMemory, PlainData, ServiceDate};
use std::alloc::Global;
use std::marker::Model;

/// The news of one trip: which run it names, and the news of its stops. A contract sees what is said.
#[derive(Drop)]
pub struct TripNews {
    pub trip: Bytes,
    pub date: Option<ServiceDate>,
    /// Seconds from the start of the service day.
    pub start: Option<u32>,
    pub kind: TripKind,
    pub stops: StopNewsList,
}

impl Model for TripNews {
    ghost use Rattle.lc_model.specs.Versions.News.{TripSaid};

    ghost Value = { TripSaid };

    ghost view = { λ n. record { trip = n.trip; date = n.date; start = n.start; kind = n.kind; stops = n.stops } };
}

impl PlainData for TripNews {
    fn copy(&self, alloc: Global) -> Result<TripNews, NoMemory> {
        Ok(TripNews {
            trip: self.trip.copy(alloc)?,
            date: self.date,
            start: self.start,
            kind: self.kind,
            stops: self.stops.copy(alloc)?,
        })
    }
}

/// The news of trips, one after the other.
pub type NewsList = Items<TripNews>;
