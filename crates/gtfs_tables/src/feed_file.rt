ghost use Rattle.std.specs.Prelude.{◌≡◌};
ghost use Rattle.gtfs_tables.specs.Files.{name_of};

/// The files of a feed that are read, in the order in which they are read.
#[derive(Clone, Copy, PartialEq, Eq)]
pub enum FeedFile {
    Stops,
    Trips,
    StopTimes,
    Calendar,
    CalendarDates,
    Frequencies,
    Transfers,
}

impl FeedFile {
    pub fn name(self) -> &'static str
        ensures { result.now ≡ name_of self }
    {
        match self {
            FeedFile::Stops => "stops.txt",
            FeedFile::Trips => "trips.txt",
            FeedFile::StopTimes => "stop_times.txt",
            FeedFile::Calendar => "calendar.txt",
            FeedFile::CalendarDates => "calendar_dates.txt",
            FeedFile::Frequencies => "frequencies.txt",
            FeedFile::Transfers => "transfers.txt",
        }
    }
}
