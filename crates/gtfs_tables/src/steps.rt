ghost use Rattle.gtfs_tables.specs.Steps.{HasDates, HasFrequencies, HasStops, HasTimes, HasTransfers, HasTrips, HasWeekly, IsStep, IsWrongDates, IsWrongFrequencies, IsWrongStops, IsWrongTimes, IsWrongTransfers, IsWrongTrips, IsWrongWeekly};

use crate::FeedFile;
use crate::calendars::{DateRows, Frequencies, Transfers, WeeklyList};
use crate::end::End;
use crate::fields::TripRows;
use crate::judge::{
    judge_dates, judge_frequencies, judge_stop_times, judge_stops, judge_transfers, judge_trips,
    judge_weekly,
};
use crate::look::look;
use crate::trips::TimedTrips;
use lc_io::Folder;
use lc_model::Stops;
use std::alloc::Global;

/// The stops of the feed.
pub(crate) fn feed_stops<F: Folder>(alloc: Global, folder: &mut F, feed: &str) -> Result<Stops, End>
    ensures { IsStep (F.seen folder.old) (F.seen folder.new) feed.now FeedFile.Stops HasStops IsWrongStops result }
{
    let bytes = look(alloc, folder, feed, FeedFile::Stops)?;
    judge_stops(alloc, bytes)
}

/// The trips of the feed, also those that are left out.
pub(crate) fn feed_trips<F: Folder>(
    alloc: Global,
    folder: &mut F,
    feed: &str,
) -> Result<TripRows, End>
    ensures { IsStep (F.seen folder.old) (F.seen folder.new) feed.now FeedFile.Trips HasTrips IsWrongTrips result }
{
    let bytes = look(alloc, folder, feed, FeedFile::Trips)?;
    judge_trips(alloc, bytes)
}

/// The stop times of the feed, which are of these stops and trips.
pub(crate) fn feed_stop_times<F: Folder>(
    alloc: Global,
    folder: &mut F,
    feed: &str,
    stops: &Stops,
    trips: &TripRows,
) -> Result<TimedTrips, End>
    ensures { IsStep (F.seen folder.old) (F.seen folder.new) feed.now FeedFile.StopTimes
        (HasTimes stops.now trips.now)
        (IsWrongTimes stops.now trips.now)
        result }
{
    let bytes = look(alloc, folder, feed, FeedFile::StopTimes)?;
    judge_stop_times(alloc, stops, trips, bytes)
}

/// The weekdays of the services of the feed, if calendar.txt is there.
pub(crate) fn feed_weekly<F: Folder>(
    alloc: Global,
    folder: &mut F,
    feed: &str,
) -> Result<Option<WeeklyList>, End>
    ensures { IsStep (F.seen folder.old) (F.seen folder.new) feed.now FeedFile.Calendar HasWeekly IsWrongWeekly result }
{
    let bytes = look(alloc, folder, feed, FeedFile::Calendar)?;
    judge_weekly(alloc, bytes)
}

/// The dates of the services of the feed, where calendar.txt is there or not.
pub(crate) fn feed_dates<F: Folder>(
    alloc: Global,
    folder: &mut F,
    feed: &str,
    has_calendar: bool,
) -> Result<DateRows, End>
    ensures { IsStep (F.seen folder.old) (F.seen folder.new) feed.now FeedFile.CalendarDates
        (HasDates has_calendar)
        (IsWrongDates has_calendar)
        result }
{
    let bytes = look(alloc, folder, feed, FeedFile::CalendarDates)?;
    judge_dates(alloc, has_calendar, bytes)
}

/// The frequencies of the feed, which are of these trips.
pub(crate) fn feed_frequencies<F: Folder>(
    alloc: Global,
    folder: &mut F,
    feed: &str,
    trips: &TripRows,
) -> Result<Frequencies, End>
    ensures { IsStep (F.seen folder.old) (F.seen folder.new) feed.now FeedFile.Frequencies
        (HasFrequencies trips.now)
        (IsWrongFrequencies trips.now)
        result }
{
    let bytes = look(alloc, folder, feed, FeedFile::Frequencies)?;
    judge_frequencies(alloc, trips, bytes)
}

/// The transfers of the feed, which are of these stops.
pub(crate) fn feed_transfers<F: Folder>(
    alloc: Global,
    folder: &mut F,
    feed: &str,
    stops: &Stops,
) -> Result<Transfers, End>
    ensures { IsStep (F.seen folder.old) (F.seen folder.new) feed.now FeedFile.Transfers
        (HasTransfers stops.now)
        (IsWrongTransfers stops.now)
        result }
{
    let bytes = look(alloc, folder, feed, FeedFile::Transfers)?;
    judge_transfers(alloc, stops, bytes)
}
