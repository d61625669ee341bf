ghost use Rattle.std.specs.Prelude.{◌≡◌, ◌/◌, ◌-◌, ◌↔◌, ◌≤◌, IsTrue};
ghost use Rattle.cli_words.specs.Window.{IsDateAt, IsWindow};

use lc_model::{Moment, ServiceDate};
use lc_time::{days_at, iso_text, read_date};

/// Whether a window of so many days from this date on is within the dates of the timetable.
pub(crate) fn is_window(first: ServiceDate, days: u32) -> bool
    ensures { IsTrue result ↔ IsWindow first days }
{
    match days_at(first) {
        Some(number) => number >= 9 && u64::from(number) + u64::from(days) <= 2_932_881,
        None => false,
    }
}

/// The day before the date of the moment in UTC.
pub(crate) fn date_before(moment: Moment) -> ServiceDate
    requires { 86_400 ≤ moment }
    ensures { IsDateAt result (moment / 86_400 - 1) }
{
    date_of(Moment::new(moment.seconds() - 86_400).unwrap())
}

/// The date of the moment in UTC, with which its text begins.
fn date_of(moment: Moment) -> ServiceDate
    ensures { IsDateAt result (moment / 86_400) }
{
    let [y0, y1, y2, y3, _, m0, m1, _, d0, d1, ..] = iso_text(moment);
    read_date(&[y0, y1, y2, y3, m0, m1, d0, d1]).unwrap()
}
