ghost use Rattle.std.specs.Prelude.{◌≡◌, ◌↔◌, ◌<◌, ◌≤ℤ◌, IfOk, IsTrue, OnOk, false, slice_index_or};
ghost use Rattle.std.specs.List.{Contains};
ghost use Rattle.jiff_core.specs.Calendar.{IsEpochDay};
ghost use Rattle.lc_model.specs.declared.date.ServiceDate.{ServiceDate as Stated};
ghost use Rattle.service_days.specs.Days.{IsInWindow, RunsWeekly, day_number, weekday_of};
ghost use Rattle.service_days.specs.Listing.{Gains};

use gtfs_tables::Weekly;
use jiff_core::civil::Date;
use lc_model::{NoMemory, ServiceDate};
use lc_time::{library_date, service_date};
use std::alloc::Global;

/// The number of the date's day, 0 for 1970-01-01.
fn day_number(date: ServiceDate) -> i64
    ensures value { result ≡ day_number date }
    ensures bound { IsEpochDay result }
{
    library_date(date).to_unix_epoch_day() as i64
}

/// Adds the date of this number, if there is one in the years 1 to 9999.
fn push_date(list: &mut Vec<ServiceDate>, number: i64) -> Result<(), NoMemory>
    ensures { OnOk result (Gains (λ (date : Stated). day_number date ≡ number) list.old.items list.new.items) }
{
    if let Ok(date) = Date::from_unix_epoch_day(number) {
        if date.year >= 1 {
            list.push(service_date(date))?;
        }
    }
    Ok(())
}

/// This many dates from the first on, as far as the year 9999.
pub(crate) fn window_dates(
    alloc: Global,
    first: ServiceDate,
    count: u32,
) -> Result<Vec<ServiceDate>, NoMemory>
    ensures { IfOk result (λ list. (date : Stated) → Contains list.items date ↔ IsInWindow first count date) }
{
    let from = day_number(first);
    let mut list = Vec::new(alloc);
    for k in 0..count {
        push_date(&mut list, from + k as i64)?;
    }
    Ok(list)
}

pub(crate) fn is_in_window(first: ServiceDate, count: u32, date: ServiceDate) -> bool
    ensures { IsTrue result ↔ IsInWindow first count date }
{
    let (from, number) = (day_number(first), day_number(date));
    from <= number && number < from + count as i64
}

/// Whether the row runs its service on the date.
pub(crate) fn runs_weekly(row: &Weekly, date: ServiceDate) -> bool
    ensures { IsTrue result ↔ RunsWeekly row.now date }
{
    is_weekday_set(row, date) && is_in_range(row, date)
}

fn is_weekday_set(row: &Weekly, date: ServiceDate) -> bool
    ensures { IsTrue result ↔ IsTrue (slice_index_or row.now.days (weekday_of date) false) }
{
    row.days[weekday_of(date)]
}

fn is_in_range(row: &Weekly, date: ServiceDate) -> bool
    ensures { IsTrue result ↔ ((day_number row.now.from ≤ℤ day_number date)
        × (day_number date ≤ℤ day_number row.now.to)) }
{
    let number = day_number(date);
    let (first, last) = (day_number(row.from), day_number(row.to));
    first <= number && number <= last
}

/// The place of the date's weekday in a week, 0 for Monday.
fn weekday_of(date: ServiceDate) -> usize
    ensures value { result ≡ weekday_of date }
    ensures bound { result < 7 }
{
    library_date(date).weekday().index() as usize
}
