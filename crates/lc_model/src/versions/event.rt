/// What a message says of the arrival or the departure at a stop (GTFS Realtime Reference, StopTimeEvent).
#[derive(Clone, Copy, PartialEq, Eq)]
pub struct Event {
    /// Seconds late, negative where early.
    pub delay: Option<i32>,
    /// Seconds since 1970-01-01T00:00:00Z.
    pub time: Option<i64>,
}

/// How the trip serves a stop (GTFS Realtime Reference, StopTimeUpdate.ScheduleRelationship).
#[derive(Clone, Copy, PartialEq, Eq)]
pub enum Relation {
    Scheduled,
    Skipped,
    NoData,
}

/// What the news of a trip are (GTFS Realtime Reference, TripDescriptor.ScheduleRelationship).
#[derive(Clone, Copy, PartialEq, Eq)]
pub enum TripKind {
    /// Of a run of the timetable.
    Scheduled,
    /// A further run.
    Added,
    /// The run does not take place.
    Canceled,
}
