ghost use Rattle.rounds_client.specs.Ends.Version.{AlikeAt, FewestOfNeededAt};

/// A journey of the fewest rides on the side's own needed pages is one of the timetable at the version, and the other way round. All
/// such journeys arrive at one moment, with one number of rides.
pub fn fewest_at_version()
    ensures needed { FewestOfNeededAt }
    ensures alike { AlikeAt }
{}
