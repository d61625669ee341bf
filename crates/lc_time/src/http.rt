ghost use Rattle.std.specs.Prelude.{◌≡◌, ℕ, reverse, Some, IfSome};
ghost use Rattle.lc_time.specs.Http as spec;
ghost use Rattle.lc_time.specs.Http.{http_date_of, SaysHttpDate};

use httpdate::HttpDate;
use lc_model::Moment;

/// The moment as a date of HTTP, in the format IMF-fixdate of RFC 9110, section 5.6.7.
pub fn http_date(moment: Moment) -> [u8; 29]
    ensures text { result ≡ http_date_of moment }
    ensures says { SaysHttpDate result moment }
{
    HttpDate::from_unix_secs(moment.seconds())
        .unwrap()
        .to_bytes()
}

/// The moment that a date of HTTP says, in one of the three formats of RFC 9110, section 5.6.7. Spaces and tabs are
/// dropped at both ends. None exactly where the text is no such date of a moment.
pub fn read_http_date(text: &[u8]) -> Option<Moment>
    ensures said { IfSome result (SaysHttpDate text.now) }
    ensures exact { (moment : ℕ) → SaysHttpDate text.now moment → result ≡ Some moment }
{
    match HttpDate::parse_ascii(without_blanks(text)) {
        Ok(date) => Moment::new(date.unix_secs()),
        Err(_) => None,
    }
}

/// The text without the spaces and tabs at its ends, which are the optional white space of RFC 9110, section 5.6.3.
/// Linear in the text.
pub fn without_blanks(text: &[u8]) -> &[u8]
    ensures { result.now ≡ spec.without_blanks text.now }
{
    without_end_blanks(without_front_blanks(text))
}

fn without_front_blanks(mut text: &[u8]) -> &[u8]
    ensures { result.now ≡ spec.without_front_blanks text.now }
{
    while let [b' ' | b'\t', rest @ ..] = text {
        text = rest;
    }
    text
}

fn without_end_blanks(mut text: &[u8]) -> &[u8]
    ensures { result.now ≡ reverse (spec.without_front_blanks (reverse text.now)) }
{
    while let [rest @ .., b' ' | b'\t'] = text {
        text = rest;
    }
    text
}
