ghost use Rattle.std.specs.Prelude.{◌≡◌};
ghost use Rattle.gtfs_tables.specs.Calendars.Calendar.{HaveOneRowAService};

use lc_model::{Id, NoMemory, PlainData, ServiceDate, copy_each};
use std::alloc::Global;
use std::marker::Model;

/// A row of calendar.txt: on which weekdays of a range of dates a service runs.
#[derive(Drop)]
pub struct Weekly {
    pub service: Id,
    /// Monday to Sunday.
    pub days: [bool; 7],
    /// The first date of the range.
    pub from: ServiceDate,
    /// The last date of the range. Where it is before the first the range is empty.
    pub to: ServiceDate,
}

impl PlainData for Weekly {
    fn copy(&self, alloc: Global) -> Result<Weekly, NoMemory> {
        Ok(Weekly {
            service: self.service.copy(alloc)?,
            days: self.days,
            from: self.from,
            to: self.to,
        })
    }
}

/// The weekdays of the services of a feed, in the order of the file. No two rows are of one service.
#[derive(Drop)]
pub struct WeeklyList {
    items: Vec<Weekly>,
}

impl Model for WeeklyList {
    ghost use Rattle.std.specs.Prelude.{List};
    ghost use Rattle.gtfs_tables.specs.Calendars.Calendar.{HaveOneRowAService};
    ghost use Rattle.gtfs_tables.specs.declared.calendars.calendar.Weekly.{Weekly};

    ghost Value = { List Weekly };

    ghost view = { λ w. w.items.items };

    ghost invariant = { λ w. HaveOneRowAService w.items.items };
}

impl WeeklyList {
    pub fn from_list(list: Vec<Weekly>) -> WeeklyList
        requires { HaveOneRowAService list.items }
        ensures { result ≡ list.items }
    {
        WeeklyList { items: list }
    }

    pub fn as_slice(&self) -> &[Weekly]
        ensures value { result.now ≡ self.now }
        ensures one_row_a_service { HaveOneRowAService result.now }
    {
        self.items.as_slice()
    }
}

impl PlainData for WeeklyList {
    fn copy(&self, alloc: Global) -> Result<WeeklyList, NoMemory> {
        let items = copy_each(alloc, self.as_slice())?;
        Ok(WeeklyList::from_list(items))
    }
}
