//! Where pages begin.
use fragmenter::{ByCount, BySpan, Cutting, Fragmenter};
use lc_model::Moment;
use rows_common::{Unmade, put_line, put_number};
use std::alloc::Global;

/// The midnight of 2024-05-01 in UTC.
const MIDNIGHT: u64 = 1_714_521_600;

/// The departures of the small feed, in minutes of the day: 08:00 08:11 08:12 08:20 09:00 10:00.
const SMALL: [u64; 6] = [480, 491, 492, 500, 540, 600];

/// Departures some of which are of one second, which are never parted.
const TIED: [u64; 6] = [480, 480, 480, 481, 481, 600];

fn push_moment(moments: &mut Vec<Moment>, minute: u64) -> Result<(), Unmade> {
    let Some(moment) = Moment::new(MIDNIGHT + 60 * (minute % 1440)) else {
        return Err(Unmade);
    };
    match moments.push(moment) {
        Ok(()) => Ok(()),
        Err(_) => Err(Unmade),
    }
}

fn moments(alloc: Global, minutes: &[u64]) -> Result<Vec<Moment>, Unmade> {
    let mut moments = Vec::new(alloc);
    for minute in minutes {
        push_moment(&mut moments, *minute)?;
    }
    Ok(moments)
}

/// A way to cut: by half hours, one by one, by twos or whole.
#[derive(Clone, Copy)]
enum Way {
    HalfHours,
    Ones,
    Twos,
    Whole,
}

fn cutting(way: Way) -> Cutting {
    match way {
        Way::HalfHours => Cutting::Span(BySpan { seconds: 1800 }),
        Way::Ones => Cutting::Count(ByCount { count: 1 }),
        Way::Twos => Cutting::Count(ByCount { count: 2 }),
        Way::Whole => Cutting::Whole,
    }
}

/// What is cut, and how.
const CUTS: [(&str, Way, &[u64]); 9] = [
    ("the small feed by half hours", Way::HalfHours, &SMALL),
    ("the small feed one by one", Way::Ones, &SMALL),
    ("the small feed by twos", Way::Twos, &SMALL),
    ("the small feed whole", Way::Whole, &SMALL),
    ("tied departures by half hours", Way::HalfHours, &TIED),
    ("tied departures one by one", Way::Ones, &TIED),
    ("tied departures by twos", Way::Twos, &TIED),
    ("no departures by half hours", Way::HalfHours, &[]),
    ("no departures whole", Way::Whole, &[]),
];

/// A line for each of `CUTS`, and one for each cut.
pub(super) fn put_ways(alloc: Global, text: &mut String) -> Result<(), Unmade> {
    for &(name, way, minutes) in &CUTS {
        put_way(alloc, text, name, way, minutes)?;
    }
    Ok(())
}

fn put_way(
    alloc: Global,
    text: &mut String,
    name: &str,
    way: Way,
    minutes: &[u64],
) -> Result<(), Unmade> {
    put_line(text, "cut", name)?;
    let departures = moments(alloc, minutes)?;
    put_cuts(alloc, text, cutting(way), departures.as_slice())
}

fn put_cuts(
    alloc: Global,
    text: &mut String,
    way: Cutting,
    departures: &[Moment],
) -> Result<(), Unmade> {
    match way.cuts(alloc, departures) {
        Ok(cuts) => put_minutes(text, cuts.as_slice()),
        Err(_) => Err(Unmade),
    }
}

/// A line for each moment: its minute of the day.
fn put_minutes(text: &mut String, moments: &[Moment]) -> Result<(), Unmade> {
    for moment in moments {
        let seconds = moment.seconds().wrapping_sub(MIDNIGHT);
        put_minute(text, seconds / 60, seconds % 60)?;
    }
    Ok(())
}

fn put_minute(text: &mut String, minute: u64, second: u64) -> Result<(), Unmade> {
    if second != 0 {
        return Err(Unmade);
    }
    put_number(text, "at minute", minute)
}
