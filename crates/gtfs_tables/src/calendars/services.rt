use crate::calendars::{DateRows, WeeklyList};
use lc_model::{NoMemory, PlainData};
use std::alloc::Global;

/// When the services of a feed run: on weekdays of ranges of dates, and on single dates.
#[derive(Drop)]
pub struct Services {
    /// The rows of calendar.txt.
    pub weekly: WeeklyList,
    /// The rows of calendar_dates.txt.
    pub dates: DateRows,
}

impl PlainData for Services {
    fn copy(&self, alloc: Global) -> Result<Services, NoMemory> {
        Ok(Services {
            weekly: self.weekly.copy(alloc)?,
            dates: self.dates.copy(alloc)?,
        })
    }
}
