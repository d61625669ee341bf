ghost use Rattle.page_client.specs.Shown.{IsRefusal};
ghost use Rattle.back_scan.specs.Forward.{forward_query};

use back_scan::{ArriveQuery, LONGEST_HORIZON};
use page_client::QueryFault;

/// Why a question is refused at once, if it is: for what a client is that leaves a horizon before.
pub fn refusal_of(query: &ArriveQuery) -> Option<QueryFault>
    ensures { IsRefusal (forward_query query.now) result }
{
    if query.horizon < 1 || query.horizon > LONGEST_HORIZON {
        Some(QueryFault::HorizonRange)
    } else if query.from == query.to {
        Some(QueryFault::SameStop)
    } else {
        None
    }
}
