ghost use Rattle.std.specs.Prelude.{◌≡◌, ◌↔◌, Any, IfOk, IsTrue, OnOk};
ghost use Rattle.std.specs.List.{Contains};
ghost use Rattle.std.specs.List.Sorted.{IsSorted};
ghost use Rattle.gtfs_tables.specs.declared.calendars.calendar.Weekly.{Weekly as StatedWeekly};
ghost use Rattle.gtfs_tables.specs.declared.calendars.calendar_dates.DateRow.{DateRow as StatedRow};
ghost use Rattle.lc_model.specs.declared.date.ServiceDate.{ServiceDate as StatedDate};
ghost use Rattle.service_days.specs.Days.{IsRemoved, day_cmp};
ghost use Rattle.service_days.specs.Listing.{Gains, IsAddedBy, IsKept, IsRegularBy, IsRegularOn, IsRemovedBy};
ghost use Rattle.service_days.specs.declared.service_day.ServiceDay.{ServiceDay as Stated};

use crate::ServiceDay;
use crate::window::{is_in_window, runs_weekly};
use gtfs_tables::{DateRow, Weekly};
use lc_model::{Id, NoMemory, PlainData, ServiceDate};
use std::alloc::Global;
use std::cmp::Ordering;

pub(crate) fn by_day(a: &ServiceDay, b: &ServiceDay) -> Ordering
    ensures { result ≡ day_cmp a.now b.now }
{
    a.service.cmp(&b.service).then(a.date.cmp(&b.date))
}

fn is_among(day: &ServiceDay, sorted: &[ServiceDay]) -> bool
    requires { IsSorted day_cmp sorted.now }
    ensures { IsTrue result ↔ Contains sorted.now day.now }
{
    sorted.binary_search(day).is_ok()
}

/// Adds the day of the service on the date, if it is not taken away.
fn push_day(
    alloc: Global,
    days: &mut Vec<ServiceDay>,
    removed: &[ServiceDay],
    service: &Id,
    date: ServiceDate,
) -> Result<(), NoMemory>
    requires { IsSorted day_cmp removed.now }
    ensures { OnOk result (Gains (IsKept removed.now service.now date) days.old.items days.new.items) }
{
    let service = service.copy(alloc)?;
    let day = ServiceDay { service, date };
    if !is_among(&day, removed) {
        days.push(day)?;
    }
    Ok(())
}

fn push_regular_on(
    alloc: Global,
    days: &mut Vec<ServiceDay>,
    removed: &[ServiceDay],
    row: &Weekly,
    date: ServiceDate,
) -> Result<(), NoMemory>
    requires { IsSorted day_cmp removed.now }
    ensures { OnOk result (Gains (IsRegularOn removed.now row.now date) days.old.items days.new.items) }
{
    if runs_weekly(row, date) {
        push_day(alloc, days, removed, &row.service, date)?;
    }
    Ok(())
}

/// Adds the days of the window on which the row runs its service, without those that are taken away.
fn push_regular(
    alloc: Global,
    days: &mut Vec<ServiceDay>,
    removed: &[ServiceDay],
    row: &Weekly,
    window: &[ServiceDate],
) -> Result<(), NoMemory>
    requires { IsSorted day_cmp removed.now }
    ensures { OnOk result (Gains (IsRegularBy removed.now window.now row.now) days.old.items days.new.items) }
{
    for date in window {
        push_regular_on(alloc, days, removed, row, *date)?;
    }
    Ok(())
}

/// Adds the days of the window on which rows of calendar.txt run their services, without those that are taken away.
pub(crate) fn push_all_regular(
    alloc: Global,
    days: &mut Vec<ServiceDay>,
    removed: &[ServiceDay],
    weekly: &[Weekly],
    window: &[ServiceDate],
) -> Result<(), NoMemory>
    requires { IsSorted day_cmp removed.now }
    ensures { OnOk result (Gains (λ (d : Stated). Any (λ (row : StatedWeekly). IsRegularBy removed.now window.now row d) weekly.now)
        days.old.items days.new.items) }
{
    for row in weekly {
        push_regular(alloc, days, removed, row, window)?;
    }
    Ok(())
}

fn push_added_by(
    alloc: Global,
    days: &mut Vec<ServiceDay>,
    removed: &[ServiceDay],
    row: &DateRow,
    first: ServiceDate,
    count: u32,
) -> Result<(), NoMemory>
    requires { IsSorted day_cmp removed.now }
    ensures { OnOk result (Gains (IsAddedBy removed.now first count row.now) days.old.items days.new.items) }
{
    if row.added && is_in_window(first, count, row.date) {
        push_day(alloc, days, removed, &row.service, row.date)?;
    }
    Ok(())
}

/// Adds the days of the window on which rows of calendar_dates.txt add their services, without those that are taken away.
pub(crate) fn push_all_added(
    alloc: Global,
    days: &mut Vec<ServiceDay>,
    removed: &[ServiceDay],
    dates: &[DateRow],
    first: ServiceDate,
    count: u32,
) -> Result<(), NoMemory>
    requires { IsSorted day_cmp removed.now }
    ensures { OnOk result (Gains (λ (d : Stated). Any (λ (row : StatedRow). IsAddedBy removed.now first count row d) dates.now)
        days.old.items days.new.items) }
{
    for row in dates {
        push_added_by(alloc, days, removed, row, first, count)?;
    }
    Ok(())
}

fn push_removed_by(alloc: Global, days: &mut Vec<ServiceDay>, row: &DateRow) -> Result<(), NoMemory>
    ensures { OnOk result (Gains (IsRemovedBy row.now) days.old.items days.new.items) }
{
    if !row.added {
        let service = row.service.copy(alloc)?;
        let date = row.date;
        days.push(ServiceDay { service, date })?;
    }
    Ok(())
}

/// The days that are taken away, sorted.
pub(crate) fn removed_days(alloc: Global, dates: &[DateRow]) -> Result<Vec<ServiceDay>, NoMemory>
    ensures all { IfOk result (λ days. (d : Stated) → Contains days.items d ↔ IsRemoved dates.now d.service d.date) }
    ensures sorted { IfOk result (λ days. IsSorted day_cmp days.items) }
{
    let mut days = Vec::new(alloc);
    for row in dates {
        push_removed_by(alloc, &mut days, row)?;
    }
    days.sort_unstable_by(|a, b| by_day(a, b));
    Ok(days)
}
