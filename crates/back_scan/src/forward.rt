ghost use Rattle.std.specs.Prelude.{◌≡◌, ◌≤◌, IfOk};
ghost use Rattle.back_scan.specs.Forward.{forward_query};
ghost use Rattle.back_scan.specs.declared.arrive_query.TheConstants.{LONGEST_HORIZON};

use crate::ArriveQuery;
use lc_model::{Moment, NoMemory, PlainData, Query};
use std::alloc::Global;

/// The moment so many seconds before the one by which a question asks to arrive.
fn leave_of(query: &ArriveQuery) -> Moment
    requires { query.now.horizon ≤ LONGEST_HORIZON }
    ensures { result ≡ (forward_query query.now).leave }
{
    let leave = query.arrive.seconds() - u64::from(query.horizon);
    Moment::new(leave).unwrap()
}

/// The question with the same stops that leaves a horizon before the moment by which this one asks to arrive.
pub fn forward_query(alloc: Global, query: &ArriveQuery) -> Result<Query, NoMemory>
    requires { query.now.horizon ≤ LONGEST_HORIZON }
    ensures { IfOk result (λ forward. forward ≡ forward_query query.now) }
{
    Ok(Query {
        from: query.from.copy(alloc)?,
        to: query.to.copy(alloc)?,
        leave: leave_of(query),
        known: query.known,
        horizon: query.horizon,
    })
}
