//! What the types of values say of them. A call reads the parts of what it borrows, and does nothing else.

ghost use Rattle.lc_model.specs.Run.{InKeyOrder};
ghost use Rattle.page_json.specs.Valid.{IsValidDoc};

use lc_model::{Runs, StopsDoc};

pub(crate) fn runs_are_in_order(runs: &Runs)
    ensures { InKeyOrder runs.now }
{
    let _runs = runs.as_slice();
}

pub(crate) fn doc_is_valid(doc: &StopsDoc)
    ensures { IsValidDoc doc.now }
{
    let _stops = doc.stops.as_slice();
    let _changes = doc.changes.as_slice();
}
