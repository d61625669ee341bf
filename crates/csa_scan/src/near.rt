ghost use Rattle.std.specs.Prelude.{◌≡◌, ℕ, ◌<◌, ◌↔◌, IfOk, IsTrue, MatchOption, Some, length};
ghost use Rattle.lc_model.specs.Question.{IsEnd};
ghost use Rattle.lc_model.specs.Stop.{InStopOrder};
ghost use Rattle.csa_scan.specs.Near.{AreEndsAlone, AreNear, AreWithin, ComesNear, IsWalkAt};
ghost use Rattle.csa_scan.specs.Reach.{id_at};
ghost use Rattle.csa_scan.specs.declared.trace.Near.{Near};

use crate::places::{is_end, place_of};
use crate::side::Side;
use crate::trace::Near;
use lc_model::{Id, NoMemory, Stop, StopsDoc, Walk};
use std::alloc::Global;

/// The stop at the place is near to itself where it is an end of the question.
fn itself(stops: &[Stop], place: usize, named: &Id) -> Option<Near>
    requires in_order { InStopOrder stops.now }
    requires within { place < length stops.now }
    ensures { MatchOption result (¬ IsEnd stops.now named.now (id_at stops.now place))
        (λ n. IsEnd stops.now named.now (id_at stops.now place) × (n.place ≡ place) × (n.seconds ≡ 0)) }
{
    if is_end(stops, place, named) {
        Some(Near { place, seconds: 0 })
    } else {
        None
    }
}

/// The ends of the question, each near to itself.
fn ends_alone(alloc: Global, stops: &[Stop], named: &Id) -> Result<Vec<Option<Near>>, NoMemory>
    requires { InStopOrder stops.now }
    ensures { IfOk result (λ near. AreEndsAlone stops.now named.now near.items) }
{
    let mut near = Vec::with_capacity(alloc, stops.len())?;
    for place in 0..stops.len() {
        near.push(itself(stops, place, named))?;
    }
    Ok(near)
}

/// Whether so many seconds are fewer than those to the nearest end so far.
fn is_nearer(seconds: u32, near: Option<Near>) -> bool
    ensures { IsTrue result ↔ ((n : Near) → near ≡ Some n → seconds < n.seconds) }
{
    match near {
        Some(near) => seconds < near.seconds,
        None => true,
    }
}

/// There is a walk of so many seconds between the inner stop and the outer one. It counts where this is an end of the
/// question.
fn come_near(
    stops: &[Stop],
    near: &mut [Option<Near>],
    named: &Id,
    outer: &Id,
    inner: &Id,
    seconds: u32,
)
    requires in_order { InStopOrder stops.now }
    requires one_each { length near.old ≡ length stops.now }
    ensures { ComesNear stops.now named.now outer.now inner.now seconds near.old near.new }
{
    let Some(place) = place_of(stops, outer) else {
        return;
    };
    if !is_end(stops, place, named) {
        return;
    }
    let Some(stop) = place_of(stops, inner) else {
        return;
    };
    let before = near[stop];
    if is_nearer(seconds, before) {
        near[stop] = Some(Near { place, seconds });
    }
}

/// The walks by each change, one after the other.
fn walk_all(side: Side, doc: &StopsDoc, named: &Id, near: &mut [Option<Near>])
    requires { AreEndsAlone doc.now.stops named.now near.old }
    ensures { AreNear side doc.now.stops doc.now.changes named.now near.new }
{
    let stops = doc.stops.as_slice();
    let changes = doc.changes.as_slice();
    for change in changes {
        come_near(
            stops,
            near,
            named,
            side.outer(change),
            side.inner(change),
            change.seconds,
        );
    }
}

/// The nearest end to each stop on this side. Linear in the stops and the changes, times the logarithm of the stops.
pub fn nearest(
    alloc: Global,
    side: Side,
    doc: &StopsDoc,
    named: &Id,
) -> Result<Vec<Option<Near>>, NoMemory>
    ensures { IfOk result (λ near. AreNear side doc.now.stops doc.now.changes named.now near.items) }
{
    let mut near = ends_alone(alloc, doc.stops.as_slice(), named)?;
    walk_all(side, doc, named, &mut near);
    Ok(near)
}

/// The walk between the stop and the end nearest to it, or none where it is that end. Takes the logarithm of the stops.
pub fn walk_at(
    alloc: Global,
    side: Side,
    stops: &[Stop],
    near: &[Option<Near>],
    inner: &Id,
) -> Result<Option<Walk>, NoMemory>
    requires in_order { InStopOrder stops.now }
    requires one_each { length near.now ≡ length stops.now }
    requires within { AreWithin near.now }
    ensures { IfOk result (IsWalkAt side stops.now near.now inner.now) }
{
    let Some(stop) = place_of(stops, inner) else {
        return Ok(None);
    };
    match near[stop] {
        Some(near) if near.seconds > 0 => {
            let outer = &stops[near.place].id;
            let walk = side.walk(alloc, inner, outer, near.seconds)?;
            Ok(Some(walk))
        }
        _ => Ok(None),
    }
}
