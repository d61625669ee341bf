ghost use Rattle.std.specs.Prelude.{◌≤◌};
ghost use Rattle.lc_model.specs.declared.query.TheConstants.{FIRST_LEAVE, LAST_LEAVE};

use crate::{Id, Moment, NoMemory, PlainData};
use std::alloc::Global;

/// The first moment at which a question may leave: 1970-01-11T00:00:00Z.
pub const FIRST_LEAVE: u64 = 864_000;

/// The last moment at which a question may leave: 9999-12-14T23:59:59Z.
pub const LAST_LEAVE: u64 = 253_400_831_999;

/// A question: how to get from one stop to another, leaving at a moment or later and arriving within a horizon.
/// The timetable is the one that was known at a moment, or the newest.
#[derive(PartialEq, Eq, Drop)]
pub struct Query {
    pub from: Id,
    pub to: Id,
    pub leave: Moment,
    /// The moment whose knowledge of the timetable is meant; the newest where it is none.
    pub known: Option<Moment>,
    /// In seconds.
    pub horizon: u32,
    pub ghost not_before: { FIRST_LEAVE ≤ leave },
    pub ghost not_after: { leave ≤ LAST_LEAVE },
}

impl PlainData for Query {
    fn copy(&self, alloc: Global) -> Result<Query, NoMemory> {
        Ok(Query {
            from: self.from.copy(alloc)?,
            to: self.to.copy(alloc)?,
            leave: self.leave,
            known: self.known,
            horizon: self.horizon,
        })
    }
}
