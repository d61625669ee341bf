ghost use Rattle.std.specs.Prelude.{◌≡◌, ◌+◌, ◌<◌, ◌↔◌, IsTrue, Some, length};
ghost use Rattle.lc_model.specs.Stop.{InStopOrder};
ghost use Rattle.csa_scan.specs.Relaxed.{Improves, Relaxes};
ghost use Rattle.csa_scan.specs.declared.trace.Ready.{Ready};

use crate::places::place_of;
use crate::trace::Ready;
use lc_model::{Change, Id, Moment, Stop, StopsDoc};

/// The second at which the change after the arrival is made.
fn changed_at(arr: Moment, change: &Change) -> u64
    ensures { result ≡ arr + change.now.seconds }
{
    arr.seconds() + u64::from(change.seconds)
}

/// Whether the second is before the stop was ready so far.
fn is_sooner(at: u64, ready: Option<Ready>) -> bool
    ensures { IsTrue result ↔ ((r : Ready) → ready ≡ Some r → at < r.at) }
{
    match ready {
        Some(ready) => at < ready.at,
        None => true,
    }
}

/// The stop of the id, if there is one, is ready at the second, where it was not so by then.
fn improve(stops: &[Stop], ready: &mut [Option<Ready>], to: &Id, at: u64, after: usize)
    requires in_order { InStopOrder stops.now }
    requires one_each { length ready.old ≡ length stops.now }
    ensures { Improves stops.now to.now at after ready.old ready.new }
{
    let Some(place) = place_of(stops, to) else {
        return;
    };
    let before = ready[place];
    if is_sooner(at, before) {
        ready[place] = Some(Ready { at, after });
    }
}

/// The arrival at the stop makes ready what one may change to there.
pub fn relax(doc: &StopsDoc, ready: &mut [Option<Ready>], stop: usize, arr: Moment, after: usize)
    requires one_each { length ready.old ≡ length doc.now.stops }
    requires within { stop < length doc.now.stops }
    ensures { Relaxes doc.now stop arr after ready.old ready.new }
{
    let stops = doc.stops.as_slice();
    // Changes are in order, as what takes an arrival asks.
    let _in_order = doc.changes.as_slice();
    for change in doc.changes.from(&stops[stop].id) {
        improve(stops, ready, &change.to, changed_at(arr, change), after);
    }
}
