ghost use Rattle.std.specs.Prelude.{◌≤◌};
ghost use Rattle.back_scan.specs.declared.arrive_query.TheConstants.{FIRST_ARRIVE, LAST_ARRIVE};

use lc_model::{Id, Moment};

/// The first moment by which a question may ask to arrive: 1970-01-18T00:00:00Z.
pub const FIRST_ARRIVE: u64 = 1_468_800;

/// The last moment by which a question may ask to arrive: 9999-12-14T23:59:59Z.
pub const LAST_ARRIVE: u64 = 253_400_831_999;

/// The longest horizon of a question, in seconds: a week.
pub const LONGEST_HORIZON: u32 = 604_800;

/// A question: how to get from one stop to another by a moment, leaving as late as possible within a horizon. The
/// timetable is the one that was known at a moment, or the newest.
#[derive(Drop)]
pub struct ArriveQuery {
    pub from: Id,
    pub to: Id,
    pub arrive: Moment,
    /// The moment whose knowledge of the timetable is meant; the newest where it is none.
    pub known: Option<Moment>,
    /// In seconds.
    pub horizon: u32,
    pub ghost not_before: { FIRST_ARRIVE ≤ arrive },
    pub ghost not_after: { arrive ≤ LAST_ARRIVE },
}
