ghost use Rattle.lc_model.specs.Run.{RunsForward};

use lc_model::{Runs, StopsDoc};
use lc_time::Zone;

/// The timetable of a feed in a window.
#[derive(Drop)]
pub struct Timetable {
    /// The zone of the feed.
    pub zone: Zone,
    pub runs: Runs,
    /// The stops, and the changes between them.
    pub doc: StopsDoc,
    /// How many connections the runs have.
    pub connections: u64,
    /// How many trips there are, without those that are left out.
    pub trips: u64,
    /// How many trips are left out, as a row of theirs has no stop.
    pub left_out: u64,
    pub ghost forward: { RunsForward runs },
}
