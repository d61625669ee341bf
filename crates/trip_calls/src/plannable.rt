ghost use Rattle.std.specs.Prelude.{◌↔◌, ◌≤ℤ◌, IsTrue, pos};
ghost use Rattle.trip_calls.specs.Plannable.{ArePlannable, IsPlannable};

use jiff_core::civil::Date;
use lc_model::ServiceDate;
use service_days::Days;

// 1970-01-10, counted from 1970-01-01.
const FIRST_DAY: i32 = 9;

// 9999-12-15.
const LAST_DAY: i32 = 2_932_880;

/// Whether the date is one from 1970-01-10 to 9999-12-15, on which runs may be planned.
pub fn is_plannable(date: ServiceDate) -> bool
    ensures { IsTrue result ↔ IsPlannable date }
{
    let date = Date {
        year: date.year as i16,
        month: date.month,
        day: date.day,
    };
    is_between(date.to_unix_epoch_day())
}

fn is_between(day: i32) -> bool
    ensures { IsTrue result ↔ ((pos 9 ≤ℤ day) × (day ≤ℤ pos 2_932_880)) }
{
    FIRST_DAY <= day && day <= LAST_DAY
}

/// Whether runs may be planned on each of the days. Linear in the days.
pub fn are_plannable(days: &Days) -> bool
    ensures { IsTrue result ↔ ArePlannable days.now }
{
    let days = days.as_slice();
    days.iter().all(|day| is_plannable(day.date))
}
