ghost use Rattle.std.specs.Prelude.{◌≡◌, ℕ, ◌+◌, ◌*◌, ◌<◌, Some, IfSome, IsAscii, IsTrue};
ghost use Rattle.lc_time.specs.Clock.{are_clock_digits, clock_said, clock_text_of, start_text_of, SaysGtfsTime};
ghost use Rattle.lc_time.specs.Digits.{number_of};

use crate::digits::{are_digits, number, two_digits};

/// The first number of seconds whose hours two digits cannot count, 100 hours.
pub const CLOCK_END: u32 = 360_000;

/// HH:MM:SS.
pub fn clock_text(seconds: u32) -> [u8; 8]
    requires { seconds < CLOCK_END }
    ensures { result ≡ clock_text_of seconds }
{
    let [h0, h1] = two_digits((seconds / 3600) as u8);
    let [m0, m1] = two_digits((seconds / 60 % 60) as u8);
    let [s0, s1] = two_digits((seconds % 60) as u8);
    [h0, h1, b':', m0, m1, b':', s0, s1]
}

/// The seconds of HH:MM:SS, in which hours may reach 99.
pub(crate) fn read_clock(text: &[u8]) -> Option<u32>
    ensures in_range { IfSome result (λ seconds. seconds < CLOCK_END) }
    ensures said { IfSome result (λ seconds. text.now ≡ clock_text_of seconds) }
    ensures exact { (seconds : ℕ) → seconds < CLOCK_END → text.now ≡ clock_text_of seconds → result ≡ Some seconds }
{
    clock_seconds(text)
}

// The seconds that the digits say. Digits are tested, and not written again: most of a feed are times.
fn clock_seconds(text: &[u8]) -> Option<u32>
    ensures { result ≡ clock_said text.now }
{
    let &[h0, h1, c0, m0, m1, c1, s0, s1] = text else {
        return None;
    };
    if c0 == b':' && c1 == b':' && is_clock(h0, h1, m0, m1, s0, s1) {
        Some(seconds_of(h0, h1, m0, m1, s0, s1))
    } else {
        None
    }
}

// Whether these are two digits of hours, and two of minutes and of seconds up to 59.
fn is_clock(h0: u8, h1: u8, m0: u8, m1: u8, s0: u8, s1: u8) -> bool
    ensures { result ≡ are_clock_digits h0 h1 m0 m1 s0 s1 }
{
    are_digits(&[h0, h1, m0, m1, s0, s1]) && number(m0, m1) < 60 && number(s0, s1) < 60
}

// The seconds that these digits write.
fn seconds_of(h0: u8, h1: u8, m0: u8, m1: u8, s0: u8, s1: u8) -> u32
    requires { IsTrue (are_clock_digits h0 h1 m0 m1 s0 s1) }
    ensures { result ≡ number_of h0 h1 * 3600 + number_of m0 m1 * 60 + number_of s0 s1 }
{
    u32::from(number(h0, h1)) * 3600 + u32::from(number(m0, m1)) * 60 + u32::from(number(s0, s1))
}

/// The seconds that a time of GTFS says, as `25:10:00` or `7:05:00`. It has two digits of hours, or one, and two of
/// minutes and seconds up to 59. None exactly where the text is no such time.
pub fn read_gtfs_time(text: &[u8]) -> Option<u32>
    ensures said { IfSome result (SaysGtfsTime text.now) }
    ensures exact { (seconds : ℕ) → SaysGtfsTime text.now seconds → result ≡ Some seconds }
{
    match *text {
        [h1, c0, m0, m1, c1, s0, s1] => read_clock(&[b'0', h1, c0, m0, m1, c1, s0, s1]),
        _ => read_clock(text),
    }
}

/// The start of a run as six digits, HHMMSS.
pub fn start_text(start: u32) -> [u8; 6]
    requires { start < CLOCK_END }
    ensures text { result ≡ start_text_of start }
    ensures ascii { IsAscii result }
{
    let [h0, h1, _, m0, m1, _, s0, s1] = clock_text(start);
    [h0, h1, m0, m1, s0, s1]
}

/// The start that six digits say. None exactly where the text is no start below 360,000, written so.
pub fn read_start(text: &[u8]) -> Option<u32>
    ensures in_range { IfSome result (λ start. start < CLOCK_END) }
    ensures said { IfSome result (λ start. text.now ≡ start_text_of start) }
    ensures exact { (start : ℕ) → start < CLOCK_END → text.now ≡ start_text_of start → result ≡ Some start }
{
    match *text {
        [h0, h1, m0, m1, s0, s1] => read_clock(&[h0, h1, b':', m0, m1, b':', s0, s1]),
        _ => None,
    }
}
