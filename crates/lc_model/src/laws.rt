ghost use Rattle.std.specs.Prelude.{◌≡◌, ◌+◌, ◌*◌};
ghost use Rattle.lc_model.specs.Laws.{OneArrival, OneLeastArrival, OneListOfConnections, OneWalkAfter, OneWalkBefore};

use crate::{FIRST_LEAVE, LAST_LEAVE, MOMENTS_END};

/// The connections of runs are one list.
pub fn one_list_of_connections()
    ensures { OneListOfConnections }
{}

/// Whatever answers a question arrives at one moment, or all of it is that there is no journey.
pub fn one_arrival()
    ensures answers { OneArrival }
    ensures chains { OneLeastArrival }
{}

/// A journey has one walk to the stop where its first ride boards, or needs none. From the stop where its last ride
/// alights it has one walk or needs none, too.
pub fn one_walk()
    ensures before { OneWalkBefore }
    ensures after { OneWalkAfter }
{}

/// A question may leave from ten days after the first moment on, and up to fifteen days before the last.
pub fn leaving_within()
    ensures first { FIRST_LEAVE ≡ 10 * 86_400 }
    ensures last { LAST_LEAVE + 1 + 15 * 86_400 ≡ MOMENTS_END }
{}
