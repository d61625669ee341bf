ghost use Rattle.std.specs.Prelude.{◌≡◌, ◌<◌, ◌≤ℤ◌, ◌+ℤ◌, ◌-ℤ◌, ◌*ℤ◌, pos, Some};
ghost use Rattle.jiff_tz.specs.Ambiguous.{compatible_offset};
ghost use Rattle.jiff_tz.specs.Tzif.{floor_second};
ghost use Rattle.lc_time.specs.Zone.{anchor_of, date_shown, library_date, moment_at, noon_of, offset_at, offset_shown};

use crate::Zone;
use jiff_core::civil::{Date, DateTime, Time};
use jiff_core::{Offset, Timestamp};
use jiff_tz::AmbiguousOffset;
use lc_model::{MOMENTS_END, Moment, ServiceDate};

const HALF_A_DAY: i64 = 43_200;

/// The moment from which the times of a service day are counted: 12 hours before noon of its date in the zone. None
/// exactly where that is no moment (GTFS Schedule Reference, field type Time).
pub fn anchor(zone: &Zone, date: ServiceDate) -> Option<Moment>
    ensures { result ≡ anchor_of zone.now date }
{
    let noon = noon_of(date);
    match offset_shown(zone, noon).to_timestamp(noon) {
        Ok(instant) => moment_before(instant),
        Err(_) => None,
    }
}

/// The date that the zone's clock shows at the moment.
pub fn civil_date(zone: &Zone, moment: Moment) -> ServiceDate
    ensures { date_shown zone.now moment ≡ Some result }
{
    let shown = offset_at(zone, moment).to_datetime(instant_of(moment));
    service_date(shown.date)
}

#[tactic(auto, unfolding(crate::specs::Zone::offset_at))]
/// The offset of the zone's clock at the moment.
fn offset_at(zone: &Zone, moment: Moment) -> Offset
    ensures { result.seconds ≡ offset_at zone.now (pos moment) }
{
    match zone {
        Zone::Utc => Offset::UTC,
        Zone::Posix(rule) => rule.to_offset(instant_of(moment)),
        Zone::File(table) => table.to_offset(instant_of(moment)),
    }
}

#[tactic(auto, unfolding(crate::specs::Zone::offset_shown))]
/// The offset of the zone's clock when it shows the date and time.
fn offset_shown(zone: &Zone, shown: DateTime) -> Offset
    ensures { result.seconds ≡ offset_shown zone.now shown }
{
    match zone {
        Zone::Utc => Offset::UTC,
        Zone::Posix(rule) => earlier_offset(rule.to_ambiguous_offset(shown)),
        Zone::File(table) => earlier_offset(table.to_ambiguous_offset(shown)),
    }
}

/// In a gap the offset before it, in a fold that of the earlier instant.
fn earlier_offset(offsets: AmbiguousOffset) -> Offset
    ensures { result ≡ compatible_offset offsets }
{
    match offsets {
        AmbiguousOffset::Unambiguous { offset } => offset,
        AmbiguousOffset::Gap { before, .. } => before,
        AmbiguousOffset::Fold { before, .. } => before,
    }
}

fn instant_of(moment: Moment) -> Timestamp
    ensures value { result.nanosecond ≡ pos moment *ℤ pos 1_000_000_000 }
    ensures in_range { moment < MOMENTS_END }
{
    Timestamp {
        nanosecond: moment.seconds() as i128 * 1_000_000_000,
    }
}

/// The date as `jiff` has it.
pub fn library_date(date: ServiceDate) -> Date
    ensures { result ≡ library_date date }
{
    Date {
        year: date.year as i16,
        month: date.month,
        day: date.day,
    }
}

fn noon_of(date: ServiceDate) -> DateTime
    ensures { result ≡ noon_of date }
{
    let time = Time {
        hour: 12,
        minute: 0,
        second: 0,
        subsec_nanosecond: 0,
    };
    DateTime {
        date: library_date(date),
        time,
    }
}

/// The moment that comes 12 hours before the instant.
fn moment_before(noon: Timestamp) -> Option<Moment>
    ensures { result ≡ moment_at (floor_second noon.nanosecond -ℤ pos 43_200) }
{
    moment_at(noon.floor_second() - HALF_A_DAY)
}

fn moment_at(second: i64) -> Option<Moment>
    ensures { result ≡ moment_at second }
{
    if second < 0 {
        return None;
    }
    Moment::new(second as u64)
}

/// The date that a date of `jiff` is.
pub fn service_date(date: Date) -> ServiceDate
    requires { pos 1 ≤ℤ date.year }
    ensures year { pos result.year ≡ date.year }
    ensures month { result.month ≡ date.month }
    ensures day { result.day ≡ date.day }
{
    ServiceDate {
        year: date.year as u16,
        month: date.month,
        day: date.day,
    }
}
