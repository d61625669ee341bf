ghost use Rattle.std.specs.Prelude.{◌≡◌, ◌<◌, ◌≤◌, ◌↔◌, IsTrue, MatchOption, length};
ghost use Rattle.back_scan.specs.Departs.{IsBoardingStop, IsNoBoarding, IsNoStart, IsStart, PicksStart};
ghost use Rattle.back_scan.specs.Over.{IsOver};

use crate::trace::{Alighting, Departure, Start};
use csa_scan::{Guesses, Near, guessed_place};
use lc_model::{Connection, Moment, Query, StopsDoc};

/// The stop of the connection's departure, if one may board there and none departs from it later. What departs after the
/// run is left is not boarded.
pub fn boarding_stop(
    doc: &StopsDoc,
    guesses: &mut Guesses,
    departures: &[Option<Departure>],
    connection: &Connection,
    alighting: &Alighting,
) -> Option<usize>
    requires { length departures.now ≡ length doc.now.stops }
    ensures { MatchOption result (IsNoBoarding doc.now departures.now connection.now alighting.now)
        (IsBoardingStop doc.now departures.now connection.now alighting.now) }
{
    if !connection.board || connection.dep > alighting.arr {
        return None;
    }
    let stop = guessed_place(guesses, doc.stops.as_slice(), &connection.dep_stop)?;
    match departures[stop] {
        Some(_) => None,
        None => Some(stop),
    }
}

/// The start of a journey by a departure from the stop, if one leaves the nearest end of the question for it within the
/// horizon.
pub fn start_of(query: &Query, starts: &[Option<Near>], stop: usize, dep: Moment) -> Option<Start>
    requires { stop < length starts.now }
    ensures { MatchOption result (IsNoStart query.now starts.now stop dep) (IsStart query.now starts.now stop dep) }
{
    let near = starts[stop]?;
    let seconds = u64::from(near.seconds);
    if dep.seconds() < query.leave.seconds() + seconds {
        return None;
    }
    let leaves = Moment::new(dep.seconds() - seconds)?;
    Some(Start { leaves, stop })
}

/// The later of the best start and the new one, if there is one.
pub fn later(best: Option<Start>, start: Option<Start>) -> Option<Start>
    ensures { PicksStart best start result }
{
    let Some(start) = start else {
        return best;
    };
    match best {
        Some(best) if best.leaves >= start.leaves => Some(best),
        _ => Some(start),
    }
}

/// Whether the moment is at or before the latest departure, or at or before the first of the horizon where there is none.
pub fn is_over(query: &Query, latest: Option<Moment>, first: Moment) -> bool
    ensures { IsTrue result ↔ IsOver query.now latest first }
{
    match latest {
        Some(leaves) => first <= leaves,
        None => first <= query.leave,
    }
}
