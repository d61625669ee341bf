ghost use Rattle.std.specs.Prelude.{◌≡◌};
ghost use Rattle.lc_time.specs.Clock.{gtfs_time_said};
ghost use Rattle.gtfs_tables.specs.Fields.Times.{is_wrong_time as wrong_time};

use lc_time::read_gtfs_time;

/// The seconds of the service day that a time says. None exactly where the text is no time.
pub fn read_time(text: &[u8]) -> Option<u32>
    ensures { result ≡ gtfs_time_said text.now }
{
    read_gtfs_time(text)
}

/// Whether a time is unreadable that is not empty.
pub fn is_wrong_time(text: &[u8]) -> bool
    ensures { result ≡ wrong_time text.now }
{
    !text.is_empty() && read_time(text).is_none()
}
