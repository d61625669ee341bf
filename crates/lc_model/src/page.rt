use crate::Moment;

/// What names a page: the version of the timetable, and the moment from which it holds departures.
#[derive(Clone, Copy, PartialEq, Eq)]
pub struct PageName {
    pub version: Moment,
    pub departs: Moment,
}
