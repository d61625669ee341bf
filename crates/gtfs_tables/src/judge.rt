ghost use Rattle.std.specs.Prelude.{option_map};
ghost use Rattle.gtfs_tables.specs.Steps.{HasDates, HasFrequencies, HasStops, HasTimes, HasTransfers, HasTrips, HasWeekly, IsWrongDates, IsWrongFrequencies, IsWrongStops, IsWrongTimes, IsWrongTransfers, IsWrongTrips, IsWrongWeekly, Judges};

use crate::FeedFile;
use crate::calendars::{
    DateRows, Frequencies, Transfers, WeeklyList, read_calendar, read_calendar_dates,
    read_frequencies, read_transfers,
};
use crate::end::{End, absent, end_of};
use crate::fields::TripRows;
use crate::trips::{TimedTrips, read_stop_times, read_stops, read_trips};
use lc_model::{PlainData, Stops};
use std::alloc::Global;

/// What stops.txt says.
pub(crate) fn judge_stops(alloc: Global, bytes: Option<Vec<u8>>) -> Result<Stops, End>
    ensures { Judges FeedFile.Stops (option_map (λ b. b.items) bytes) HasStops IsWrongStops result }
{
    let Some(bytes) = bytes else {
        return Err(absent(FeedFile::Stops));
    };
    match read_stops(alloc, bytes.as_slice()) {
        Ok(stops) => Ok(stops),
        Err(fault) => Err(end_of(FeedFile::Stops, fault)),
    }
}

/// What trips.txt says.
pub(crate) fn judge_trips(alloc: Global, bytes: Option<Vec<u8>>) -> Result<TripRows, End>
    ensures { Judges FeedFile.Trips (option_map (λ b. b.items) bytes) HasTrips IsWrongTrips result }
{
    let Some(bytes) = bytes else {
        return Err(absent(FeedFile::Trips));
    };
    match read_trips(alloc, bytes.as_slice()) {
        Ok(trips) => Ok(trips),
        Err(fault) => Err(end_of(FeedFile::Trips, fault)),
    }
}

/// What stop_times.txt says of these stops and trips.
pub(crate) fn judge_stop_times(
    alloc: Global,
    stops: &Stops,
    trips: &TripRows,
    bytes: Option<Vec<u8>>,
) -> Result<TimedTrips, End>
    ensures { Judges FeedFile.StopTimes (option_map (λ b. b.items) bytes)
        (HasTimes stops.now trips.now)
        (IsWrongTimes stops.now trips.now)
        result }
{
    let Some(bytes) = bytes else {
        return Err(absent(FeedFile::StopTimes));
    };
    // The trips are kept whole, since frequencies may be of those that are left out.
    let copy = trips.copy(alloc)?;
    match read_stop_times(alloc, bytes.as_slice(), stops, copy) {
        Ok(timed) => Ok(timed),
        Err(fault) => Err(end_of(FeedFile::StopTimes, fault)),
    }
}

/// What calendar.txt says, if it is there.
pub(crate) fn judge_weekly(alloc: Global, bytes: Option<Vec<u8>>) -> Result<Option<WeeklyList>, End>
    ensures { Judges FeedFile.Calendar (option_map (λ b. b.items) bytes) HasWeekly IsWrongWeekly result }
{
    let Some(bytes) = bytes else {
        return Ok(None);
    };
    match read_calendar(alloc, bytes.as_slice()) {
        Ok(weekly) => Ok(Some(weekly)),
        Err(fault) => Err(end_of(FeedFile::Calendar, fault)),
    }
}

/// What calendar_dates.txt says. Where it is absent, and calendar.txt too, calendar.txt is named.
pub(crate) fn judge_dates(
    alloc: Global,
    has_calendar: bool,
    bytes: Option<Vec<u8>>,
) -> Result<DateRows, End>
    ensures { Judges FeedFile.CalendarDates (option_map (λ b. b.items) bytes)
        (HasDates has_calendar)
        (IsWrongDates has_calendar)
        result }
{
    let Some(bytes) = bytes else {
        return if has_calendar {
            Ok(DateRows::from_list(Vec::new(alloc)))
        } else {
            Err(absent(FeedFile::Calendar))
        };
    };
    match read_calendar_dates(alloc, bytes.as_slice()) {
        Ok(dates) => Ok(dates),
        Err(fault) => Err(end_of(FeedFile::CalendarDates, fault)),
    }
}

/// What frequencies.txt says of these trips.
pub(crate) fn judge_frequencies(
    alloc: Global,
    trips: &TripRows,
    bytes: Option<Vec<u8>>,
) -> Result<Frequencies, End>
    ensures { Judges FeedFile.Frequencies (option_map (λ b. b.items) bytes)
        (HasFrequencies trips.now)
        (IsWrongFrequencies trips.now)
        result }
{
    let Some(bytes) = bytes else {
        return Ok(Frequencies::from_list(Vec::new(alloc)));
    };
    match read_frequencies(alloc, bytes.as_slice(), trips) {
        Ok(frequencies) => Ok(frequencies),
        Err(fault) => Err(end_of(FeedFile::Frequencies, fault)),
    }
}

/// What transfers.txt says of these stops.
pub(crate) fn judge_transfers(
    alloc: Global,
    stops: &Stops,
    bytes: Option<Vec<u8>>,
) -> Result<Transfers, End>
    ensures { Judges FeedFile.Transfers (option_map (λ b. b.items) bytes)
        (HasTransfers stops.now)
        (IsWrongTransfers stops.now)
        result }
{
    let Some(bytes) = bytes else {
        return Ok(Transfers::from_list(Vec::new(alloc)));
    };
    match read_transfers(alloc, bytes.as_slice(), stops) {
        Ok(transfers) => Ok(transfers),
        Err(fault) => Err(end_of(FeedFile::Transfers, fault)),
    }
}
