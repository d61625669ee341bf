ghost use Rattle.std.specs.Prelude.{◌≡◌};
ghost use Rattle.gtfs_tables.specs.Calendars.CalendarDates.{HaveOneRowADate};

use lc_model::{Id, NoMemory, PlainData, ServiceDate, copy_each};
use std::alloc::Global;
use std::marker::Model;

/// A row of calendar_dates.txt: a service is added on a date, or taken away.
#[derive(Drop)]
pub struct DateRow {
    pub service: Id,
    pub date: ServiceDate,
    pub added: bool,
}

impl PlainData for DateRow {
    fn copy(&self, alloc: Global) -> Result<DateRow, NoMemory> {
        Ok(DateRow {
            service: self.service.copy(alloc)?,
            date: self.date,
            added: self.added,
        })
    }
}

/// The dates of the services of a feed, in the order of the file. No two rows are of one service and date.
#[derive(Drop)]
pub struct DateRows {
    items: Vec<DateRow>,
}

impl Model for DateRows {
    ghost use Rattle.std.specs.Prelude.{List};
    ghost use Rattle.gtfs_tables.specs.Calendars.CalendarDates.{HaveOneRowADate};
    ghost use Rattle.gtfs_tables.specs.declared.calendars.calendar_dates.DateRow.{DateRow};

    ghost Value = { List DateRow };

    ghost view = { λ d. d.items.items };

    ghost invariant = { λ d. HaveOneRowADate d.items.items };
}

impl DateRows {
    pub fn from_list(list: Vec<DateRow>) -> DateRows
        requires { HaveOneRowADate list.items }
        ensures { result ≡ list.items }
    {
        DateRows { items: list }
    }

    pub fn as_slice(&self) -> &[DateRow]
        ensures value { result.now ≡ self.now }
        ensures one_row_a_date { HaveOneRowADate result.now }
    {
        self.items.as_slice()
    }
}

impl PlainData for DateRows {
    fn copy(&self, alloc: Global) -> Result<DateRows, NoMemory> {
        let items = copy_each(alloc, self.as_slice())?;
        Ok(DateRows::from_list(items))
    }
}
