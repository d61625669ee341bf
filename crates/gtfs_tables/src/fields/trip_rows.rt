ghost use Rattle.std.specs.Prelude.{◌≡◌};
ghost use Rattle.gtfs_tables.specs.Fields.TripRows.{HaveOneRowATrip};

use lc_model::{Id, NoMemory, PlainData, copy_each};
use std::alloc::Global;
use std::marker::Model;

/// A row of trips.txt: a trip and the service on whose dates it runs.
#[derive(Drop)]
pub struct TripRow {
    pub trip: Id,
    pub service: Id,
}

impl PlainData for TripRow {
    fn copy(&self, alloc: Global) -> Result<TripRow, NoMemory> {
        Ok(TripRow {
            trip: self.trip.copy(alloc)?,
            service: self.service.copy(alloc)?,
        })
    }
}

/// The trips of a feed, in the order of the file. No two have one id.
#[derive(Drop)]
pub struct TripRows {
    items: Vec<TripRow>,
}

impl Model for TripRows {
    ghost use Rattle.std.specs.Prelude.{List};
    ghost use Rattle.gtfs_tables.specs.Fields.TripRows.{HaveOneRowATrip};
    ghost use Rattle.gtfs_tables.specs.declared.fields.trip_rows.TripRow.{TripRow};

    ghost Value = { List TripRow };

    ghost view = { λ t. t.items.items };

    ghost invariant = { λ t. HaveOneRowATrip t.items.items };
}

impl TripRows {
    pub fn from_list(list: Vec<TripRow>) -> TripRows
        requires { HaveOneRowATrip list.items }
        ensures { result ≡ list.items }
    {
        TripRows { items: list }
    }

    pub fn as_slice(&self) -> &[TripRow]
        ensures value { result.now ≡ self.now }
        ensures one_row_a_trip { HaveOneRowATrip result.now }
    {
        self.items.as_slice()
    }

    pub fn into_list(self) -> Vec<TripRow>
        ensures value { result.items ≡ self }
        ensures one_row_a_trip { HaveOneRowATrip result.items }
    {
        self.items
    }
}

impl PlainData for TripRows {
    fn copy(&self, alloc: Global) -> Result<TripRows, NoMemory> {
        let items = copy_each(alloc, self.as_slice())?;
        Ok(TripRows::from_list(items))
    }
}
