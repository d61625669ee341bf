ghost use Rattle.std.specs.Prelude.{List, Option};
ghost use Rattle.gtfs_tables.specs.declared.calendars.calendar.Weekly.{Weekly};
ghost use Rattle.gtfs_tables.specs.declared.calendars.calendar_dates.DateRow.{DateRow};
ghost use Rattle.gtfs_tables.specs.declared.fields.trip_rows.TripRow.{TripRow as Trip};
ghost use Rattle.gtfs_tables.specs.declared.trips.timed_trips.TimedTrips.{TimedTrips as Timed};
ghost use Rattle.lc_io.specs.Folder.{FolderSeen};
ghost use Rattle.lc_model.specs.declared.stop.Stop.{Stop};
ghost use Rattle.gtfs_tables.specs.Parts.{Dates, GoesOn, SoFar, Times, Ways};

use crate::calendars::{DateRows, Frequencies, Transfers, WeeklyList};
use crate::end::End;
use crate::fields::TripRows;
use crate::steps::{
    feed_dates, feed_frequencies, feed_stop_times, feed_stops, feed_transfers, feed_trips,
    feed_weekly,
};
use crate::trips::TimedTrips;
use lc_io::Folder;
use lc_model::Stops;
use std::alloc::Global;

/// What the first three files of a feed say: its stops, all its trips, and its stop times.
#[derive(Drop)]
pub(crate) struct Rides {
    pub(crate) stops: Stops,
    pub(crate) all_trips: TripRows,
    pub(crate) timed: TimedTrips,
}

/// What the next two files say: when the services of the feed run.
#[derive(Drop)]
pub(crate) struct ServiceFiles {
    pub(crate) weekly: Option<WeeklyList>,
    pub(crate) dates: DateRows,
}

/// What the last two files say.
#[derive(Drop)]
pub(crate) struct Extras {
    pub(crate) frequencies: Frequencies,
    pub(crate) transfers: Transfers,
}

/// What the files after the first three say.
#[derive(Drop)]
pub(crate) struct Rest {
    pub(crate) services: ServiceFiles,
    pub(crate) extras: Extras,
}

/// The first three files of the feed.
pub(crate) fn feed_rides<F: Folder>(alloc: Global, folder: &mut F, feed: &str) -> Result<Rides, End>
    ensures { GoesOn (F.seen folder.old) (F.seen folder.new) feed.now result 3 (λ rides. Times rides.stops rides.all_trips rides.timed) }
{
    let stops = feed_stops(alloc, folder, feed)?;
    let all_trips = feed_trips(alloc, folder, feed)?;
    let timed = feed_stop_times(alloc, folder, feed, &stops, &all_trips)?;
    Ok(Rides {
        stops,
        all_trips,
        timed,
    })
}

/// The files after the first three, where these say the stops and all trips.
pub(crate) fn feed_rest<F: Folder>(
    alloc: Global,
    folder: &mut F,
    feed: &str,
    stops: &Stops,
    trips: &TripRows,
) -> Result<Rest, End>
    ensures { (start : FolderSeen) (timed : Timed) → SoFar start (F.seen folder.old) feed.now 3 (Times stops.now trips.now timed)
        → GoesOn start (F.seen folder.new) feed.now result 7
        (λ rest. Ways stops.now trips.now timed rest.services.weekly rest.services.dates rest.extras.frequencies rest.extras.transfers) }
{
    let services = feed_services(alloc, folder, feed)?;
    let extras = feed_extras(alloc, folder, feed, stops, trips)?;
    Ok(Rest { services, extras })
}

// The two files that say when services run.
fn feed_services<F: Folder>(alloc: Global, folder: &mut F, feed: &str) -> Result<ServiceFiles, End>
    ensures { (start : FolderSeen) (stops : List Stop) (trips : List Trip) (timed : Timed)
        → SoFar start (F.seen folder.old) feed.now 3 (Times stops trips timed)
        → GoesOn start (F.seen folder.new) feed.now result 5 (λ services. Dates stops trips timed services.weekly services.dates) }
{
    let weekly = feed_weekly(alloc, folder, feed)?;
    let dates = feed_dates(alloc, folder, feed, weekly.is_some())?;
    Ok(ServiceFiles { weekly, dates })
}

// The last two files, which are of these stops and trips.
fn feed_extras<F: Folder>(
    alloc: Global,
    folder: &mut F,
    feed: &str,
    stops: &Stops,
    trips: &TripRows,
) -> Result<Extras, End>
    ensures { (start : FolderSeen) (timed : Timed) (weekly : Option (List Weekly)) (dates : List DateRow)
        → SoFar start (F.seen folder.old) feed.now 5 (Dates stops.now trips.now timed weekly dates)
        → GoesOn start (F.seen folder.new) feed.now result 7
        (λ extras. Ways stops.now trips.now timed weekly dates extras.frequencies extras.transfers) }
{
    let frequencies = feed_frequencies(alloc, folder, feed, trips)?;
    let transfers = feed_transfers(alloc, folder, feed, stops)?;
    Ok(Extras {
        frequencies,
        transfers,
    })
}
