ghost use Rattle.std.specs.Prelude.{◌≡◌, ◌+◌, ◌<◌, ◌≤◌, ◌⊎◌, ◌↔◌, ℕ, IsTrue, MatchOption, None, Some, true, length};
ghost use Rattle.std.specs.List.{slice_get};
ghost use Rattle.lc_model.specs.Question.{latest_of};
ghost use Rattle.lc_model.specs.Stop.{InStopOrder};
ghost use Rattle.csa_scan.specs.Boards.{CannotBoard, IsFirstBoarding, IsNotThere, IsThere};
ghost use Rattle.csa_scan.specs.Done.{IsDone};
ghost use Rattle.csa_scan.specs.Takes.{IsArrivalOf, IsGoal, IsNoGoal, IsReachedAlready, PicksGoal};
ghost use Rattle.csa_scan.specs.declared.trace.Near.{Near};
ghost use Rattle.csa_scan.specs.declared.trace.Ready.{Ready};

use crate::guesses::Guesses;
use crate::places::guessed_place;
use crate::trace::{Arrival, Boarding, Goal, Near, Ready};
use lc_model::{Connection, Moment, Query, StopsDoc};

/// Whether the connection arrives after the question's horizon.
pub fn is_late(query: &Query, connection: &Connection) -> bool
    ensures { IsTrue result ↔ (latest_of query.now < connection.now.arr) }
{
    query.leave.seconds() + u64::from(query.horizon) < connection.arr.seconds()
}

/// The arrival after which one may board by this second.
fn ready_by(ready: Option<Ready>, at: u64) -> Option<usize>
    ensures { MatchOption result ((r : Ready) → ready ≡ Some r → at < r.at)
        (λ place. (r : Ready) × (ready ≡ Some r) × (r.after ≡ place) × (r.at ≤ at)) }
{
    match ready {
        Some(ready) if ready.at <= at => Some(ready.after),
        _ => None,
    }
}

/// Whether one is there by the moment from where the question begins.
fn starts_by(query: &Query, start: Option<Near>, at: Moment) -> bool
    ensures { IsTrue result ↔ ((n : Near) × (start ≡ Some n) × (query.now.leave + n.seconds ≤ at)) }
{
    match start {
        Some(near) => query.leave.seconds() + u64::from(near.seconds) <= at.seconds(),
        None => false,
    }
}

/// How one is at the stop at the moment: after an arrival, or none where one comes from where the question begins. It is
/// none itself where one is not there.
fn way_to(
    query: &Query,
    starts: &[Option<Near>],
    ready: &[Option<Ready>],
    stop: usize,
    at: Moment,
) -> Option<Option<usize>>
    requires each_start { stop < length starts.now }
    requires each_ready { stop < length ready.now }
    ensures { MatchOption result (IsNotThere query.now starts.now ready.now stop at) (IsThere query.now starts.now ready.now stop at) }
{
    if starts_by(query, starts[stop], at) {
        return Some(None);
    }
    let after = ready_by(ready[stop], at.seconds())?;
    Some(Some(after))
}

/// How the connection is boarded, if one is at its stop when it departs.
fn first_boarding(
    query: &Query,
    doc: &StopsDoc,
    guesses: &mut Guesses,
    starts: &[Option<Near>],
    ready: &[Option<Ready>],
    connection: &Connection,
) -> Option<Boarding>
    requires each_start { length starts.now ≡ length doc.now.stops }
    requires each_ready { length ready.now ≡ length doc.now.stops }
    ensures { MatchOption result (CannotBoard query.now doc.now starts.now ready.now connection.now)
        (IsFirstBoarding query.now doc.now starts.now ready.now connection.now) }
{
    let stop = guessed_place(guesses, doc.stops.as_slice(), &connection.dep_stop)?;
    let after = way_to(query, starts, ready, stop, connection.dep)?;
    Some(Boarding {
        seq: connection.seq,
        stop,
        dep: connection.dep,
        after,
    })
}

/// How the run of the connection is boarded, before or now.
pub fn boarding(
    query: &Query,
    doc: &StopsDoc,
    guesses: &mut Guesses,
    starts: &[Option<Near>],
    ready: &[Option<Ready>],
    before: Option<Boarding>,
    connection: &Connection,
) -> Option<Boarding>
    requires each_start { length starts.now ≡ length doc.now.stops }
    requires each_ready { length ready.now ≡ length doc.now.stops }
    ensures { MatchOption result
        ((before ≡ None) × (connection.now.board ≡ true → CannotBoard query.now doc.now starts.now ready.now connection.now))
        (λ b. (before ≡ Some b) ⊎ ((before ≡ None) × (connection.now.board ≡ true) × IsFirstBoarding query.now doc.now starts.now ready.now connection.now b)) }
{
    match before {
        Some(boarding) => Some(boarding),
        None if connection.board => {
            first_boarding(query, doc, guesses, starts, ready, connection)
        }
        None => None,
    }
}

/// Whether the stop was reached by then.
fn is_reached(reached: Option<Moment>, arr: Moment) -> bool
    ensures { IsTrue result ↔ ((by : ℕ) × (reached ≡ Some by) × (by ≤ arr)) }
{
    match reached {
        Some(by) => by <= arr,
        None => false,
    }
}

/// The arrival of the connection, of a run that is boarded so, if one may alight there and was not there by then.
pub fn new_arrival(
    doc: &StopsDoc,
    guesses: &mut Guesses,
    reached: &[Option<Moment>],
    connection: &Connection,
    run: usize,
    boarding: &Boarding,
) -> Option<Arrival>
    requires { length reached.now ≡ length doc.now.stops }
    ensures { MatchOption result (connection.now.alight ≡ true → IsReachedAlready doc.now reached.now connection.now)
        (IsArrivalOf doc.now connection.now run boarding.now) }
{
    if !connection.alight {
        return None;
    }
    let stop = guessed_place(guesses, doc.stops.as_slice(), &connection.arr_stop)?;
    if is_reached(reached[stop], connection.arr) {
        return None;
    }
    Some(Arrival {
        run,
        boarding: *boarding,
        last_seq: connection.seq,
        stop,
        arr: connection.arr,
    })
}

/// The goal of the arrival at the place, if the end nearest to its stop is reached within the horizon.
pub fn goal_of(
    query: &Query,
    ends: &[Option<Near>],
    stop: usize,
    arr: Moment,
    place: usize,
) -> Option<Goal>
    requires within { stop < length ends.now }
    requires up_to_a_week { query.now.horizon ≤ 604_800 }
    ensures { MatchOption result (IsNoGoal query.now ends.now stop arr) (IsGoal query.now ends.now stop arr place) }
{
    let near = ends[stop]?;
    let at = arr.seconds() + u64::from(near.seconds);
    if query.leave.seconds() + u64::from(query.horizon) < at {
        return None;
    }
    let arr = Moment::new(at)?;
    Some(Goal { arr, place })
}

/// The earlier of the best goal and the new one, if there is one.
pub fn better(best: Option<Goal>, goal: Option<Goal>) -> Option<Goal>
    ensures { PicksGoal best goal result }
{
    let Some(goal) = goal else {
        return best;
    };
    match best {
        Some(best) if best.arr <= goal.arr => Some(best),
        _ => Some(goal),
    }
}

/// Whether the moment is at or after the best arrival, or at or after the end of the horizon where there is none.
pub fn is_over(query: &Query, best: Option<Moment>, last: Moment) -> bool
    ensures { IsTrue result ↔ IsDone query.now best last }
{
    match best {
        Some(arrival) => arrival <= last,
        None => query.leave.seconds() + u64::from(query.horizon) <= last.seconds(),
    }
}
