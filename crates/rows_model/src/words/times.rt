//! Values from outside: RFC 9110, section 5.6.7, the GTFS Schedule Reference, and the seconds and dates that the program
//! `date` of GNU prints.
use super::lines::{moment, put_input, put_read, seconds_of, wide};
use lc_model::ServiceDate;
use lc_time::{
    date_text, http_date, iso_text, read_date, read_decimal, read_gtfs_time, read_http_date,
    read_iso, read_start, read_u32, start_text, without_blanks,
};
use rows_common::{Unmade, put_bytes, put_line};

pub(super) fn put_moments(text: &mut String) -> Result<(), Unmade> {
    put_written_moments(text)?;
    put_read_moments(text)?;
    put_http_dates(text)
}

pub(super) fn put_days(text: &mut String) -> Result<(), Unmade> {
    put_times(text)?;
    put_starts(text)?;
    put_dates(text)
}

pub(super) fn put_decimals(text: &mut String) -> Result<(), Unmade> {
    put_numbers(text)?;
    put_small_numbers(text)?;
    put_blanks(text)
}

const WRITTEN_MOMENTS: [u64; 6] = [
    0,
    951_827_696,
    1_714_550_400,
    4_107_542_400,
    253_281_254_399,
    253_402_127_999,
];

/// A line for each of `WRITTEN_MOMENTS`: its text and what that is read as.
fn put_written_moments(text: &mut String) -> Result<(), Unmade> {
    for &seconds in &WRITTEN_MOMENTS {
        put_written_moment(text, seconds)?;
    }
    Ok(())
}

fn put_written_moment(text: &mut String, seconds: u64) -> Result<(), Unmade> {
    let written = iso_text(moment(seconds)?);
    put_read_moment(text, &written)
}

fn put_read_moment(text: &mut String, written: &[u8]) -> Result<(), Unmade> {
    let read = seconds_of(read_iso(written));
    match std::str::from_utf8(written) {
        Ok(input) => put_read(text, "moment written and read", input, read),
        Err(_) => Err(Unmade),
    }
}

const READ_MOMENTS: [&str; 21] = [
    "2024-05-01T08:00:00Z",
    "2024-05-01T08:00:00.999Z",
    "2024-05-01T08:00:00z",
    "2024-05-01t08:00:00Z",
    "2024-05-01 08:00:00Z",
    "2024-05-01T08:00:00",
    "2024-05-01T08:00:00.99Z",
    "2024-05-01T08:00:00.9999Z",
    "2024-05-01T08:00:00,999Z",
    "2024-05-01T08:00:00+00:00",
    "2024-05-01T24:00:00Z",
    "2024-05-01T08:60:00Z",
    "2024-05-01T08:00:60Z",
    "1970-02-29T00:00:00Z",
    "2100-02-29T00:00:00Z",
    "2024-04-31T00:00:00Z",
    "1969-12-31T23:59:59Z",
    "9999-12-30T00:00:00Z",
    "0000-01-01T00:00:00Z",
    "yesterday",
    "",
];

/// A line for each of `READ_MOMENTS`: the seconds of the moment that it says, or none.
fn put_read_moments(text: &mut String) -> Result<(), Unmade> {
    for input in &READ_MOMENTS {
        put_read(
            text,
            "moment",
            *input,
            seconds_of(read_iso(input.as_bytes())),
        )?;
    }
    Ok(())
}

const HTTP_DATES: [&str; 13] = [
    "Sun, 06 Nov 1994 08:49:37 GMT",
    "Sunday, 06-Nov-94 08:49:37 GMT",
    "Sun Nov  6 08:49:37 1994",
    " \tWed, 01 May 2024 07:00:00 GMT\t ",
    "Tuesday, 31-Dec-69 23:59:59 GMT",
    "Thursday, 01-Jan-70 00:00:00 GMT",
    "Wed, 29 Dec 9999 23:59:59 GMT",
    "Thu, 30 Dec 9999 00:00:00 GMT",
    "Mon, 06 Nov 1994 08:49:37 GMT",
    "Sun, 06 Nov 1994 08:49:37 UTC",
    "Thu, 29 Feb 2100 00:00:00 GMT",
    "\nSun, 06 Nov 1994 08:49:37 GMT",
    "yesterday",
];

/// A line for each of `HTTP_DATES`: the seconds of the moment that it says, or none; and a date as it is written.
fn put_http_dates(text: &mut String) -> Result<(), Unmade> {
    for input in &HTTP_DATES {
        let seconds = seconds_of(read_http_date(input.as_bytes()));
        put_read(text, "date of HTTP", *input, seconds)?;
    }
    let written = http_date(moment(784_111_777)?);
    put_bytes(text, "date of HTTP at 784111777", &written)
}

const TIMES: [&str; 15] = [
    "25:10:00",
    "7:05:00",
    "07:05:00",
    "00:00:00",
    "99:59:59",
    "7:60:00",
    "7:00:60",
    "100:00:00",
    "007:05:00",
    "7:5:00",
    " 7:05:00",
    "7:05:00 ",
    "-7:05:00",
    "7:05",
    "",
];

const STARTS: [&str; 5] = ["073000", "995959", "076000", "73000", "-"];

/// A line for each of `TIMES`: the seconds that it says, or none.
fn put_times(text: &mut String) -> Result<(), Unmade> {
    for input in &TIMES {
        let seconds = wide(read_gtfs_time(input.as_bytes()));
        put_read(text, "time", *input, seconds)?;
    }
    Ok(())
}

/// A line for each of `STARTS`: the seconds that it says, or none; and a start as it is written.
fn put_starts(text: &mut String) -> Result<(), Unmade> {
    for input in &STARTS {
        let seconds = wide(read_start(input.as_bytes()));
        put_read(text, "start", *input, seconds)?;
    }
    put_bytes(text, "start at 27000", &start_text(27_000))
}

/// Dates of the calendar, and then other texts.
const DATES: [&str; 15] = [
    "00010101", "19700110", "20000229", "20240229", "99960229", "99991231", "00000101", "19700229",
    "21000229", "20240230", "20240431", "20241301", "2024050", "2024-5-1", "",
];

/// A line for each of `DATES`: the date as it is written again, or none; and the numbers of a date.
fn put_dates(text: &mut String) -> Result<(), Unmade> {
    for input in &DATES {
        put_date(text, *input)?;
    }
    match read_date(b"20240501") {
        Some(date) => put_parts(text, date),
        None => Err(Unmade),
    }
}

fn put_date(text: &mut String, input: &str) -> Result<(), Unmade> {
    put_input(text, "date", input)?;
    match read_date(input.as_bytes()) {
        Some(date) => put_bytes(text, "", &date_text(date)),
        None => put_line(text, "", "none"),
    }
}

fn put_parts(text: &mut String, date: ServiceDate) -> Result<(), Unmade> {
    put_read(text, "year", "20240501", Some(u64::from(date.year)))?;
    put_read(text, "month", "20240501", Some(u64::from(date.month)))?;
    put_read(text, "day", "20240501", Some(u64::from(date.day)))
}

const NUMBERS: [&str; 14] = [
    "62",
    "0",
    "0000000062",
    "4294967295",
    "4294967296",
    "9999999999",
    "00000000062",
    "",
    "+62",
    "-62",
    " 62",
    "6:2",
    "6/2",
    "0x3E",
];

/// The last that 32 bits can say, and one more.
const SMALL_NUMBERS: [&str; 4] = ["0062", "4294967295", "4294967296", "6 2"];

/// A line for each of `NUMBERS`: the number that it says, or none.
fn put_numbers(text: &mut String) -> Result<(), Unmade> {
    for input in &NUMBERS {
        put_read(text, "number", *input, read_decimal(input.as_bytes()))?;
    }
    Ok(())
}

/// A line for each of `SMALL_NUMBERS`: the number that it says, or none.
fn put_small_numbers(text: &mut String) -> Result<(), Unmade> {
    for input in &SMALL_NUMBERS {
        let number = wide(read_u32(input.as_bytes()));
        put_read(text, "number of 32 bits", *input, number)?;
    }
    Ok(())
}

const BLANKS: [&str; 3] = [" \t close, a\t ", "\n close", "\t "];

/// A line for each of `BLANKS`: what is left without the blanks at its ends.
fn put_blanks(text: &mut String) -> Result<(), Unmade> {
    for input in &BLANKS {
        put_without_blanks(text, *input)?;
    }
    Ok(())
}

fn put_without_blanks(text: &mut String, input: &str) -> Result<(), Unmade> {
    match std::str::from_utf8(without_blanks(input.as_bytes())) {
        Ok(left) => put_left(text, input, left),
        Err(_) => Err(Unmade),
    }
}

fn put_left(text: &mut String, input: &str, left: &str) -> Result<(), Unmade> {
    put_input(text, "text", input)?;
    put_line(text, " without blanks", left)
}
