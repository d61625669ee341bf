ghost use Rattle.std.specs.Prelude.{◌≡◌, ◌/◌, ◌%◌, ◌<◌, ◌⊎◌, ◌↔◌, ℕ, Some, IfSome, IsTrue, IsAscii, codes};
ghost use Rattle.lc_time.specs.Calendar.{day_at};
ghost use Rattle.lc_time.specs.Iso.{iso_text_of, day_text_of, SaysMoment, IsFraction};

use crate::calendar::{DAYS_END, date_at, days_at};
use crate::clock::{clock_text, read_clock};
use crate::date::{civil_date, date_numbers};
use crate::digits::{four_digits, two_digits};
use lc_model::{MOMENTS_END, Moment};

const DAY_SECONDS: u32 = 86_400;

/// The moment as a text of ISO 8601 in UTC, `2024-05-01T08:00:00.000Z`.
pub fn iso_text(moment: Moment) -> [u8; 24]
    ensures text { result ≡ iso_text_of moment }
    ensures says { SaysMoment result moment }
    ensures ascii { IsAscii result }
{
    let seconds = moment.seconds();
    let mut text = *b"YYYY-MM-DDTHH:MM:SS.000Z";
    text[..10].copy_from_slice(&day_text((seconds / 86_400) as u32));
    text[11..19].copy_from_slice(&clock_text((seconds % 86_400) as u32));
    text
}

/// The moment that a text of ISO 8601 in UTC says. It is YYYY-MM-DDTHH:MM:SSZ, or that with a point and three digits
/// before the Z, which are dropped. None exactly where the text is no such one of a moment.
pub fn read_iso(text: &[u8]) -> Option<Moment>
    ensures said { IfSome result (SaysMoment text.now) }
    ensures exact { (moment : ℕ) → SaysMoment text.now moment → result ≡ Some moment }
{
    if text.len() < 19 || text[10] != b'T' {
        return None;
    }
    if is_end(&text[19..]) {
        moment_of(read_day(&text[..10]), read_clock(&text[11..19]))
    } else {
        None
    }
}

/// The moment at so many seconds of a day that comes so many days after 1970-01-01.
fn moment_of(days: Option<u32>, seconds: Option<u32>) -> Option<Moment>
    ensures in_range { IfSome result (λ moment. moment < MOMENTS_END) }
    ensures in_day { IfSome result (λ moment. (days ≡ Some (moment / 86_400)) × (seconds ≡ Some (moment % 86_400))) }
    ensures exact { (moment : ℕ) → moment < MOMENTS_END → days ≡ Some (moment / 86_400)
        → seconds ≡ Some (moment % 86_400) → result ≡ Some moment }
{
    let (days, seconds) = (days?, seconds?);
    if days >= DAYS_END || seconds >= DAY_SECONDS {
        return None;
    }
    Moment::new(u64::from(days) * 86_400 + u64::from(seconds))
}

/// YYYY-MM-DD.
fn day_text(days: u32) -> [u8; 10]
    requires { days < DAYS_END }
    ensures { result ≡ day_text_of (day_at days) }
{
    let date = date_at(days);
    let [y0, y1, y2, y3] = four_digits(date.year);
    let [m0, m1] = two_digits(date.month);
    let [d0, d1] = two_digits(date.day);
    [y0, y1, y2, y3, b'-', m0, m1, b'-', d0, d1]
}

/// The days from 1970-01-01 to the day of YYYY-MM-DD.
fn read_day(text: &[u8]) -> Option<u32>
    ensures in_range { IfSome result (λ days. days < DAYS_END) }
    ensures said { IfSome result (λ days. text.now ≡ day_text_of (day_at days)) }
    ensures exact { (days : ℕ) → days < DAYS_END → text.now ≡ day_text_of (day_at days) → result ≡ Some days }
{
    match written_days(text) {
        Some(days) if days < DAYS_END && day_text(days).as_slice() == text => Some(days),
        _ => None,
    }
}

/// The days that this text would write. Whether it is written so is not tested.
fn written_days(text: &[u8]) -> Option<u32>
    ensures { (days : ℕ) → days < DAYS_END → text.now ≡ day_text_of (day_at days) → result ≡ Some days }
{
    match *text {
        [y0, y1, y2, y3, _, m0, m1, _, d0, d1] => days_of(date_numbers([
            y0, y1, y2, y3, m0, m1, d0, d1,
        ])),
        _ => None,
    }
}

/// The days from 1970-01-01 to the date of this year, month and day, if the calendar has it.
fn days_of(numbers: (u32, u16, u16)) -> Option<u32>
    ensures { (days : ℕ) → days < DAYS_END → numbers.0 ≡ (day_at days).year → numbers.1 ≡ (day_at days).month
        → numbers.2 ≡ (day_at days).day → result ≡ Some days }
{
    let (year, month, day) = numbers;
    match civil_date(year, month, day) {
        Some(date) => days_at(date),
        None => None,
    }
}

/// Whether the seconds may be followed so.
fn is_end(rest: &[u8]) -> bool
    ensures { IsTrue result ↔ ((rest.now ≡ codes "Z") ⊎ IsFraction rest.now) }
{
    match *rest {
        [b'Z'] => true,
        [b'.', a, b, c, b'Z'] => a.is_ascii_digit() && b.is_ascii_digit() && c.is_ascii_digit(),
        _ => false,
    }
}
