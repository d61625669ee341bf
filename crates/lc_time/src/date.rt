ghost use Rattle.std.specs.Prelude.{◌≡◌, ◌<◌, ◌≤◌, ℕ, Some, IfSome, IsAscii};
ghost use Rattle.lc_model.specs.declared.date.ServiceDate.{ServiceDate as Civil};
ghost use Rattle.lc_time.specs.Date.{date_text_of, AreDateNumbers};

use crate::digits::{four_digits, number, two_digits};
use jiff_core::civil;
use lc_model::ServiceDate;

/// The date as eight digits, YYYYMMDD.
pub fn date_text(date: ServiceDate) -> [u8; 8]
    ensures text { result ≡ date_text_of date.year date.month date.day }
    ensures ascii { IsAscii result }
{
    let [y0, y1, y2, y3] = four_digits(date.year);
    let [m0, m1] = two_digits(date.month);
    let [d0, d1] = two_digits(date.day);
    [y0, y1, y2, y3, m0, m1, d0, d1]
}

/// The date that eight digits say. None exactly where the text is no date of the calendar in the years 1 to 9999,
/// written so.
pub fn read_date(text: &[u8]) -> Option<ServiceDate>
    ensures said { IfSome result (λ date. text.now ≡ date_text_of date.year date.month date.day) }
    ensures exact { (date : Civil) → text.now ≡ date_text_of date.year date.month date.day → result ≡ Some date }
{
    match *text {
        [y0, y1, y2, y3, m0, m1, d0, d1] => read_digits([y0, y1, y2, y3, m0, m1, d0, d1]),
        _ => None,
    }
}

fn read_digits(text: [u8; 8]) -> Option<ServiceDate>
    ensures said { IfSome result (λ date. text ≡ date_text_of date.year date.month date.day) }
    ensures exact { (date : Civil) → text ≡ date_text_of date.year date.month date.day → result ≡ Some date }
{
    match written_date(text) {
        Some(date) if date_text(date) == text => Some(date),
        _ => None,
    }
}

/// The date that this text would write. Whether it is written so is not tested.
fn written_date(text: [u8; 8]) -> Option<ServiceDate>
    ensures { (date : Civil) → text ≡ date_text_of date.year date.month date.day → result ≡ Some date }
{
    let (year, month, day) = date_numbers(text);
    civil_date(year, month, day)
}

/// The year, the month and the day that these digits would write.
pub(crate) fn date_numbers(text: [u8; 8]) -> (u32, u16, u16)
    ensures bound { result.0 < 1_000_000 }
    ensures year { (year month day : ℕ) → AreDateNumbers year month day → text ≡ date_text_of year month day → result.0 ≡ year }
    ensures month { (year month day : ℕ) → AreDateNumbers year month day → text ≡ date_text_of year month day → result.1 ≡ month }
    ensures day { (year month day : ℕ) → AreDateNumbers year month day → text ≡ date_text_of year month day → result.2 ≡ day }
{
    let [y0, y1, y2, y3, m0, m1, d0, d1] = text;
    let year = u32::from(number(y0, y1)) * 100 + u32::from(number(y2, y3));
    (year, number(m0, m1), number(d0, d1))
}

/// The date of these numbers, if the calendar has it in the years 1 to 9999.
pub(crate) fn civil_date(year: u32, month: u16, day: u16) -> Option<ServiceDate>
    ensures { (date : Civil) → year ≡ date.year → month ≡ date.month → day ≡ date.day → result ≡ Some date }
{
    if year == 0 || year > 9999 || month == 0 || month > 12 || day == 0 {
        return None;
    }
    if day > u16::from(civil::days_in_month(year as i16, month as u8)) {
        return None;
    }
    Some(ServiceDate {
        year: year as u16,
        month: month as u8,
        day: day as u8,
    })
}
