ghost use Rattle.std.specs.Prelude.{◌≡◌, ◌≤◌, ℕ, List, MatchOption, option_map};
ghost use Rattle.clap.specs.Simple.{App};
ghost use Rattle.cli_words.specs.Line.{HasFound};
ghost use Rattle.cli_words.specs.Options.{AreOptions, bounded_said, flag_said, is_name, number_said, required_said, text_said, zone_said};

use clap::ArgMatches;
use lc_time::read_u32;

/// The options of a window.
#[derive(Clone, Copy)]
pub(crate) struct WindowOptions<'a> {
    pub(crate) days: u32,
    pub(crate) zone: &'a str,
    pub(crate) change: u32,
    pub(crate) ghost some_days: { 1 ≤ days },
    pub(crate) ghost two_months: { days ≤ 62 },
    pub(crate) ghost within_a_day: { change ≤ 86_400 },
}

/// The options of a window that were found in a line, or none where one of them is said wrongly.
pub(crate) fn read_options<'a>(
    found: &ArgMatches<'a>,
    default_days: u32,
) -> Option<WindowOptions<'a>>
    requires some_days { 1 ≤ default_days }
    requires two_months { default_days ≤ 62 }
    ensures { (a : App) (words : List (List ℕ)) → HasFound a words found.now
        → MatchOption result ((days : ℕ) (zone : List ℕ) (change : ℕ) → AreOptions a words default_days days zone change → ⊥)
        (λ options. AreOptions a words default_days options.days options.zone.now options.change) }
{
    let days = number(found.get_str("days"), default_days, 1, 62)?;
    let zone = zone_word(found.get_str("zone"))?;
    let change = number(found.get_str("change"), 120, 0, 86_400)?;
    Some(WindowOptions { days, zone, change })
}

/// The number that an option says, if it is between these. Linear in the text.
pub(crate) fn number(value: Option<&str>, default: u32, low: u32, high: u32) -> Option<u32>
    ensures { result ≡ number_said default low high (option_map (λ s. s.now) value.entry) }
{
    match value {
        Some(text) => bounded(text.as_bytes(), low, high),
        None => Some(default),
    }
}

/// The number that an option says which has to be there, if it is between these. Linear in the text.
pub(crate) fn required(value: Option<&str>, low: u32, high: u32) -> Option<u32>
    ensures { result ≡ required_said low high (option_map (λ s. s.now) value.entry) }
{
    match value {
        Some(text) => bounded(text.as_bytes(), low, high),
        None => None,
    }
}

/// Whether an option without a value is there.
pub(crate) fn flag(value: Option<&str>) -> bool
    ensures { result ≡ flag_said (option_map (λ s. s.now) value.entry) }
{
    match value {
        Some(text) => text == "true",
        None => false,
    }
}

/// The number that a text says, if it is between these. Linear in the text.
pub(crate) fn bounded(text: &[u8], low: u32, high: u32) -> Option<u32>
    ensures { result ≡ bounded_said low high text.now }
{
    let number = read_u32(text)?;
    if low <= number && number <= high {
        Some(number)
    } else {
        None
    }
}

/// The text that an option says, or its default where it is not there.
pub(crate) fn text_or<'a>(value: Option<&'a str>, default: &'a str) -> &'a str
    ensures { result.now ≡ text_said default.entry.now (option_map (λ s. s.now) value.entry) }
{
    match value {
        Some(text) => text,
        None => default,
    }
}

/// The word of a zone that an option says.
fn zone_word<'a>(value: Option<&'a str>) -> Option<&'a str>
    ensures { option_map (λ s. s.now) result ≡ zone_said (option_map (λ s. s.now) value.entry) }
{
    let Some(word) = value else {
        return Some("utc");
    };
    if is_name(word) { Some(word) } else { None }
}

/// Whether the text is neither empty nor begins with a dash.
pub(crate) fn is_name(text: &str) -> bool
    ensures { result ≡ is_name text.now }
{
    match text.as_bytes() {
        [] | [b'-', ..] => false,
        _ => true,
    }
}
