ghost use Rattle.std.specs.Prelude.{◌↔◌, IfOk};
ghost use Rattle.std.specs.List.{Contains};
ghost use Rattle.std.specs.List.Sorted.{IsSorted};
ghost use Rattle.service_days.specs.Days.{AreDays, InDayOrder, day_cmp};
ghost use Rattle.service_days.specs.Listing.{IsListed};
ghost use Rattle.service_days.specs.declared.service_day.ServiceDay.{ServiceDay as Stated};

use crate::listing::{by_day, push_all_added, push_all_regular, removed_days};
use crate::window::window_dates;
use crate::{Days, ServiceDay};
use gtfs_tables::{DateRow, Weekly};
use lc_model::{NoMemory, ServiceDate};
use std::alloc::Global;

fn listed_days(
    alloc: Global,
    removed: &[ServiceDay],
    weekly: &[Weekly],
    dates: &[DateRow],
    first: ServiceDate,
    count: u32,
) -> Result<Vec<ServiceDay>, NoMemory>
    requires { IsSorted day_cmp removed.now }
    ensures { IfOk result (λ days. (d : Stated) → Contains days.items d ↔ IsListed removed.now weekly.now dates.now first count d) }
{
    let window = window_dates(alloc, first, count)?;
    let mut days = Vec::new(alloc);
    push_all_regular(alloc, &mut days, removed, weekly, window.as_slice())?;
    push_all_added(alloc, &mut days, removed, dates, first, count)?;
    Ok(days)
}

/// The days in their order, each once.
fn in_order(mut days: Vec<ServiceDay>) -> Vec<ServiceDay>
    ensures same { (d : Stated) → Contains result.items d ↔ Contains days.items d }
    ensures in_order { InDayOrder result.items }
{
    days.sort_unstable_by(|a, b| by_day(a, b));
    days.dedup();
    days
}

/// The dates, of so many from the first on, on which services run (GTFS Schedule Reference, calendar.txt and
/// calendar_dates.txt). Dates after the year 9999 are no dates.
///
/// It takes the time of a sort of the days that are found. It takes two looks at each row of `weekly` for each date of the
/// window, and of a sort of the rows of `dates`.
pub fn days(
    alloc: Global,
    weekly: &[Weekly],
    dates: &[DateRow],
    first: ServiceDate,
    count: u32,
) -> Result<Days, NoMemory>
    ensures { IfOk result (AreDays weekly.now dates.now first count) }
{
    let removed = removed_days(alloc, dates)?;
    let list = listed_days(alloc, removed.as_slice(), weekly, dates, first, count)?;
    Ok(Days::from_list(in_order(list)))
}
