//! Zones, from outside: dates and moments that Python's `zoneinfo` gives, and the GTFS Schedule Reference.
use lc_model::Moment;
use lc_time::{Zone, anchor, civil_date, date_text, iso_text, read_date, read_iso};
use rows_common::Draft;
use service_days::{ZoneFault, read_zone, zone_file};
use std::alloc::Global;

/// Asia/Kathmandu of Debian's tzdata: 5:30 ahead of UTC from 1920, 5:45 from 1986 on.
const KATHMANDU: &[u8; 212] =
    b"TZif2\x00\x00\x00\x00\x00\x00\x00\x00\x00\x00\x00\x00\x00\x00\x00\x00\x00\x00\x00\x00\x00\x00\x00\x00\x00\x00\x00\x00\x00\x00\x03\x00\x00\x00\x03\x00\x00\x00\x10\xa1\xf2}\x84\x1e\x180\xa8\x7f\xff\xff\xff\x01\x02\x02\x00\x00O\xfc\x00\x00\x00\x00MX\x00\x04\x00\x00P\xdc\x00\x0aLMT\x00+0530\x00+0545\x00TZif2\x00\x00\x00\x00\x00\x00\x00\x00\x00\x00\x00\x00\x00\x00\x00\x00\x00\x00\x00\x00\x00\x00\x00\x00\x00\x00\x00\x00\x00\x00\x03\x00\x00\x00\x03\x00\x00\x00\x10\xff\xff\xff\xff\xa1\xf2}\x84\x00\x00\x00\x00\x1e\x180\xa8\x00\x00\x00\x00\x7f\xff\xff\xff\x01\x02\x02\x00\x00O\xfc\x00\x00\x00\x00MX\x00\x04\x00\x00P\xdc\x00\x0aLMT\x00+0530\x00+0545\x00\x0a<+0545>-5:45\x0a";

const BERLIN: &str = "posix:CET-1CEST,M3.5.0,M10.5.0/3";

/// Noon of 2024-03-31 is in a gap of one hour, noon of 2024-10-27 in a fold of one.
const AT_NOON: &str = "posix:AAA0BBB,M3.5.0/12,M10.5.0/13";

fn zone(alloc: Global, word: &str) -> Result<Zone, ZoneFault> {
    read_zone(alloc, word.as_bytes(), Some(KATHMANDU.as_slice()))
}

/// The word of a zone, a date, and seconds from the start of that service day.
const TIMES: [(&str, &str, u64); 18] = [
    (BERLIN, "20240331", 0),
    (BERLIN, "20240331", 9_000),
    (BERLIN, "20240331", 28_800),
    (BERLIN, "20241027", 0),
    ("utc", "20240501", 0),
    ("utc", "20240501", 90_600),
    ("utc", "19700101", 0),
    ("utc", "99991229", 0),
    (AT_NOON, "20240331", 0),
    (AT_NOON, "20241027", 0),
    ("file:x", "20240501", 0),
    ("file:x", "19800101", 0),
    // Service days that are outside of the moments.
    ("utc", "19691231", 0),
    ("utc", "99991230", 0),
    ("posix:CET-1", "19700101", 0),
    ("posix:AAA24:59:59", "99991229", 0),
    ("utc", "00010101", 0),
    ("posix:AAA24:59:59", "99991231", 0),
];

/// A line for each row of `TIMES`: its moment, or that the day has no anchor.
pub(super) fn put_times(alloc: Global, draft: &mut Draft) {
    for &(word, day, seconds) in &TIMES {
        draft.put_all(&[word, ", ", day, ", "]);
        draft.put_shown(&seconds);
        draft.put(" seconds: ");
        match zone(alloc, word) {
            Ok(zone) => put_time_in(draft, &zone, day, seconds),
            Err(_) => draft.lose(),
        }
    }
}

fn put_time_in(draft: &mut Draft, zone: &Zone, day: &str, seconds: u64) {
    let Some(date) = read_date(day.as_bytes()) else {
        return draft.lose();
    };
    match anchor(zone, date) {
        Some(anchor) => match Moment::new(anchor.seconds().saturating_add(seconds)) {
            Some(moment) => put_moment(draft, moment),
            None => draft.lose(),
        },
        None => draft.put("no anchor"),
    }
    draft.put("\n");
}

pub(super) fn put_moment(draft: &mut Draft, moment: Moment) {
    let shown = iso_text(moment);
    draft.put_escaped(shown.as_slice());
}

/// The word of a zone and a moment.
const MOMENTS: [(&str, &str); 9] = [
    ("utc", "2024-05-01T23:59:59Z"),
    (BERLIN, "2024-05-01T21:59:59Z"),
    (BERLIN, "2024-05-01T22:00:00Z"),
    (BERLIN, "2024-12-31T23:00:00Z"),
    ("file:x", "2024-05-01T18:15:00Z"),
    ("file:x", "1979-12-31T18:29:59Z"),
    ("posix:AAA8", "1970-01-01T07:59:59Z"),
    ("posix:AAA24:59:59", "1970-01-01T00:00:00Z"),
    ("posix:AAA-24:59:59", "9999-12-29T23:59:59Z"),
];

/// A line for each row of `MOMENTS`: the date that a clock of the zone shows.
pub(super) fn put_civil_dates(alloc: Global, draft: &mut Draft) {
    for &(word, moment) in &MOMENTS {
        draft.put_all(&[word, ", ", moment, ": "]);
        match zone(alloc, word) {
            Ok(zone) => put_civil_date_in(draft, &zone, moment),
            Err(_) => draft.lose(),
        }
    }
}

fn put_civil_date_in(draft: &mut Draft, zone: &Zone, moment: &str) {
    let Some(moment) = read_iso(moment.as_bytes()) else {
        return draft.lose();
    };
    let shown = date_text(civil_date(zone, moment));
    draft.put_escaped(shown.as_slice());
    draft.put("\n");
}

/// Words that say no zone, where there is no file.
const WRONG: [&str; 8] = [
    "",
    "UTC",
    "utc ",
    "posix:",
    "posix:CET",
    "posix:CET-1CEST",
    "posix:CET-1 ",
    "file:x",
];

/// A line for each word of `WRONG`, and for three with a file: why there is no zone.
pub(super) fn put_wrong_words(alloc: Global, draft: &mut Draft) {
    for &word in &WRONG {
        put_wrong_word(alloc, draft, word, None);
    }
    put_wrong_word(alloc, draft, "cet", Some(KATHMANDU.as_slice()));
    put_wrong_word(alloc, draft, "file:x", Some(b"".as_slice()));
    put_wrong_word(alloc, draft, "file:x", Some(&KATHMANDU[..200]));
}

fn put_wrong_word(alloc: Global, draft: &mut Draft, word: &str, file: Option<&[u8]>) {
    draft.put_all(&["'", word, "'"]);
    match file {
        Some(bytes) => {
            draft.put(" with a file of ");
            draft.put_shown(&bytes.len());
        }
        None => draft.put(" without a file"),
    }
    draft.put(": ");
    match read_zone(alloc, word.as_bytes(), file) {
        Ok(_) => draft.put("a zone"),
        Err(fault) => draft.put_shown(&fault),
    }
    draft.put("\n");
}

/// A line for each of three words: the name of the file that it asks for.
pub(super) fn put_files(draft: &mut Draft) {
    for &word in &["file:Europe/Berlin", "file:", "file"] {
        draft.put(word);
        match zone_file(word.as_bytes()) {
            Some(name) => {
                draft.put(" asks for '");
                draft.put_escaped(name);
                draft.put("'\n");
            }
            None => draft.put(" asks for no file\n"),
        }
    }
}
