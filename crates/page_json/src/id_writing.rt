//! Ids and runs as the URLs of a page have them.

ghost use Rattle.std.specs.Prelude.{◌≡◌, ◌<◌, ◌≤◌, ◌++◌, codes, decimal, IsAscii, OnOk};
ghost use Rattle.std.specs.List.{list_all};
ghost use Rattle.std.specs.Option.{ForSome};
ghost use Rattle.std.specs.String.{string_bytes};
ghost use Rattle.connection_uri.specs.Encoding.{encoded, is_unreserved};
ghost use Rattle.connection_uri.specs.Name.{run_part_of, start_part_of};
ghost use Rattle.lc_time.specs.Clock.{start_text_of};
ghost use Rattle.lc_time.specs.Date.{date_text_of};

use connection_uri::append_encoded;
use itoa::Buffer;
use lc_model::{Id, NoMemory, RunKey, ServiceDate};
use lc_time::{date_text, start_text};
use percent_encoding::ascii_str;

/// Each unreserved byte is at its own place, and a comma at every other place.
static UNRESERVED: [u8; 256] = *b"\
    ,,,,,,,,,,,,,,,,,,,,,,,,,,,,,,,,\
    ,,,,,,,,,,,,,-.,0123456789,,,,,,\
    ,ABCDEFGHIJKLMNOPQRSTUVWXYZ,,,,_\
    ,abcdefghijklmnopqrstuvwxyz,,,~,\
    ,,,,,,,,,,,,,,,,,,,,,,,,,,,,,,,,\
    ,,,,,,,,,,,,,,,,,,,,,,,,,,,,,,,,\
    ,,,,,,,,,,,,,,,,,,,,,,,,,,,,,,,,\
    ,,,,,,,,,,,,,,,,,,,,,,,,,,,,,,,,";

/// Appends the encoding of an id. Most ids need no escape, and are appended as they are.
pub fn append_id(out: &mut String, id: &Id) -> Result<(), NoMemory>
    ensures { OnOk result (string_bytes out.new ≡ string_bytes out.old ++ encoded id.now) }
{
    if needs_no_escape(id.bytes()) {
        out.push_str(id.as_str())?;
        Ok(())
    } else {
        append_encoded(out, id.bytes())
    }
}

fn needs_no_escape(bytes: &[u8]) -> bool
    ensures { result ≡ list_all is_unreserved bytes.now }
{
    bytes.iter().all(|byte| is_unreserved(*byte))
}

/// Whether the byte is a letter, a digit, or one of `-`, `.`, `_` and `~`.
fn is_unreserved(byte: u8) -> bool
    ensures { result ≡ is_unreserved byte }
{
    UNRESERVED[byte as usize] != b','
}

/// Appends trip/date/start of the run, as the names of connections and of runs have them.
pub fn append_run(out: &mut String, key: &RunKey) -> Result<(), NoMemory>
    ensures { OnOk result (string_bytes out.new ≡ string_bytes out.old ++ run_part_of key.now) }
{
    append_id(out, &key.trip)?;
    append_date(out, key.date, key.start)?;
    Ok(())
}

/// Appends /date/start.
fn append_date(out: &mut String, date: ServiceDate, start: Option<u32>) -> Result<(), NoMemory>
    requires { ForSome start (λ seconds. seconds < 360_000) }
    ensures { OnOk result (string_bytes out.new
        ≡ string_bytes out.old ++ (codes "/" ++ (date_text_of date.year date.month date.day ++ (codes "/" ++ start_part_of start)))) }
{
    match start {
        Some(start) => {
            out.push_str(ascii_str(&with_start(date, start)))?;
            Ok(())
        }
        None => {
            out.push_str(ascii_str(&without_start(date)))?;
            Ok(())
        }
    }
}

fn with_start(date: ServiceDate, start: u32) -> [u8; 16]
    requires { start < 360_000 }
    ensures text { result ≡ codes "/" ++ (date_text_of date.year date.month date.day ++ (codes "/" ++ start_text_of start)) }
    ensures ascii { IsAscii result }
{
    let [y0, y1, y2, y3, m0, m1, d0, d1] = date_text(date);
    let [h0, h1, i0, i1, s0, s1] = start_text(start);
    [
        b'/', y0, y1, y2, y3, m0, m1, d0, d1, b'/', h0, h1, i0, i1, s0, s1,
    ]
}

fn without_start(date: ServiceDate) -> [u8; 11]
    ensures text { result ≡ codes "/" ++ (date_text_of date.year date.month date.day ++ codes "/-") }
    ensures ascii { IsAscii result }
{
    let [y0, y1, y2, y3, m0, m1, d0, d1] = date_text(date);
    [b'/', y0, y1, y2, y3, m0, m1, d0, d1, b'/', b'-']
}

/// Appends a slash and the sequence of a connection. Most have one digit or two.
pub fn append_sequence(out: &mut String, sequence: u32) -> Result<(), NoMemory>
    ensures { OnOk result (string_bytes out.new ≡ string_bytes out.old ++ (codes "/" ++ decimal sequence)) }
{
    match sequence {
        0..=9 => {
            out.push_str(ascii_str(&one_digit(sequence as u8)))?;
            Ok(())
        }
        10..=99 => {
            out.push_str(ascii_str(&two_digits(sequence as u8)))?;
            Ok(())
        }
        _ => append_digits(out, sequence),
    }
}

fn append_digits(out: &mut String, sequence: u32) -> Result<(), NoMemory>
    ensures { OnOk result (string_bytes out.new ≡ string_bytes out.old ++ (codes "/" ++ decimal sequence)) }
{
    out.push_str("/")?;
    out.push_str(Buffer::new().format(sequence))?;
    Ok(())
}

fn one_digit(n: u8) -> [u8; 2]
    requires { n < 10 }
    ensures text { result ≡ codes "/" ++ decimal n }
    ensures ascii { IsAscii result }
{
    [b'/', b'0' + n]
}

fn two_digits(n: u8) -> [u8; 3]
    requires two { 10 ≤ n }
    requires no_more { n < 100 }
    ensures text { result ≡ codes "/" ++ decimal n }
    ensures ascii { IsAscii result }
{
    [b'/', b'0' + n / 10, b'0' + n % 10]
}
