ghost use Rattle.std.specs.Prelude.{◌≡◌, Option as Maybe};
ghost use Rattle.page_client.specs.Shown.{IsRefusal, first_outcome, first_phase};

use crate::phase::Phase;
use crate::{Outcome, QueryFault};
use lc_model::Query;

const WEEK: u32 = 604_800;

/// Why a question is refused at once, if it is.
pub fn refusal_of(query: &Query) -> Option<QueryFault>
    ensures { IsRefusal query.now result }
{
    if query.horizon < 1 || query.horizon > WEEK {
        Some(QueryFault::HorizonRange)
    } else if query.from == query.to {
        Some(QueryFault::SameStop)
    } else {
        None
    }
}

/// Where a client begins.
pub fn phase_at_first(refusal: Option<QueryFault>) -> Phase
    ensures { result ≡ first_phase refusal }
{
    match refusal {
        None => Phase::Gate,
        Some(_) => Phase::Finished,
    }
}

pub fn refused(refusal: Option<QueryFault>) -> Option<Outcome>
    ensures { result ≡ first_outcome refusal }
{
    match refusal {
        None => None,
        Some(fault) => Some(Outcome::Refused(fault)),
    }
}
