//! A journey, as a piece of a line each.
use crate::making::MIDNIGHT;
use lc_model::{Journey, Moment, Ride, Walk};
use rows_common::Unmade;

/// The second of the day that a moment is.
pub(crate) fn second(moment: Moment) -> u64 {
    moment.seconds().wrapping_sub(MIDNIGHT)
}

/// The walk before, the rides and the walk after, up to the end of the line.
pub(crate) fn put_parts(text: &mut String, journey: &Journey) -> Result<(), Unmade> {
    put_walk(text, journey.before.as_ref())?;
    for ride in journey.rides.as_slice() {
        put_ride(text, ride)?;
    }
    put_walk(text, journey.after.as_ref())?;
    Ok(text.push_str("\n")?)
}

fn put_walk(text: &mut String, walk: Option<&Walk>) -> Result<(), Unmade> {
    if let Some(walk) = walk {
        let (from, to) = (walk.from.as_str(), walk.to.as_str());
        let seconds = walk.seconds;
        write!(text, ", walk {from} {to} {seconds}")?;
    }
    Ok(())
}

/// The trip, the first and the last sequence, the stop and the second of boarding, and those of alighting.
fn put_ride(text: &mut String, ride: &Ride) -> Result<(), Unmade> {
    let trip = ride.key.trip.as_str();
    let (first, last) = (ride.first_seq, ride.last_seq);
    let (board, dep) = (ride.board.as_str(), second(ride.dep));
    let (alight, arr) = (ride.alight.as_str(), second(ride.arr));
    write!(text, ", {trip} {first} {last} {board} {dep} {alight} {arr}")?;
    Ok(())
}
