ghost use Rattle.std.specs.Prelude.{◌≡◌};
ghost use Rattle.gtfs_tables.specs.Trips.StopTimeOrder.{InTripOrder};
ghost use Rattle.gtfs_tables.specs.Trips.Timely.{AreTimely};

use lc_model::{Id, NoMemory, PlainData, copy_each};
use std::alloc::Global;
use std::marker::Model;

/// A row of stop_times.txt: when a trip arrives at a stop and departs, in seconds of the service day, where the row says
/// it. Whether one may board and alight.
#[derive(Drop)]
pub struct StopTime {
    pub trip: Id,
    pub stop: Id,
    pub seq: u32,
    pub arr: Option<u32>,
    pub dep: Option<u32>,
    pub board: bool,
    pub alight: bool,
}

impl PlainData for StopTime {
    fn copy(&self, alloc: Global) -> Result<StopTime, NoMemory> {
        Ok(StopTime {
            trip: self.trip.copy(alloc)?,
            stop: self.stop.copy(alloc)?,
            seq: self.seq,
            arr: self.arr,
            dep: self.dep,
            board: self.board,
            alight: self.alight,
        })
    }
}

/// The stop times of a feed, strictly ordered by trip and sequence. The first and the last of a trip have a time, and none
/// is earlier than one before it.
#[derive(Drop)]
pub struct StopTimes {
    items: Vec<StopTime>,
}

impl Model for StopTimes {
    ghost use Rattle.std.specs.Prelude.{List};
    ghost use Rattle.gtfs_tables.specs.declared.trips.stop_times.StopTime.{StopTime};
    ghost use Rattle.gtfs_tables.specs.Trips.StopTimeOrder.{InTripOrder};
    ghost use Rattle.gtfs_tables.specs.Trips.Timely.{AreTimely};

    ghost Value = { List StopTime };

    ghost view = { λ t. t.items.items };

    ghost invariant = { λ t. InTripOrder t.items.items × AreTimely t.items.items };
}

impl StopTimes {
    pub fn from_list(list: Vec<StopTime>) -> StopTimes
        requires in_order { InTripOrder list.items }
        requires timely { AreTimely list.items }
        ensures { result ≡ list.items }
    {
        StopTimes { items: list }
    }

    pub fn as_slice(&self) -> &[StopTime]
        ensures value { result.now ≡ self.now }
        ensures in_order { InTripOrder result.now }
        ensures timely { AreTimely result.now }
    {
        self.items.as_slice()
    }
}

impl PlainData for StopTimes {
    fn copy(&self, alloc: Global) -> Result<StopTimes, NoMemory> {
        let items = copy_each(alloc, self.as_slice())?;
        Ok(StopTimes::from_list(items))
    }
}
