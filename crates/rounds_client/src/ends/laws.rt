ghost use Rattle.rounds_client.specs.Ends.Laws.{FewestEndsRight, FewestIsFound, NamedAtGate, OneFewestEnd};

use crate::ends::fewest_at_version;
use convoy::{one_answer, steps_keep_agreement};
use lc_world::Link;

/// Over an honest link a client of the fewest rides ends rightly. Without a failure it found a journey that is best at the version which the
/// time gate named, with the fewest rides of all best ones. Where there is none, it found none. It asked for the time gate, the stops document
/// and the needed pages, and for nothing else. That version is the one that the known moment means at the side which the exchange with the time
/// gate left.
pub fn fewest_ends_right<L: Link>()
    ensures right { FewestEndsRight L.seen }
    ensures found { FewestIsFound L.seen }
    ensures gate { NamedAtGate L.seen }
{
    steps_keep_agreement();
    fewest_at_version();
}

/// Two right ends over quiet links with one side are alike: they name one version after as many exchanges, and arrive at one moment with as
/// many rides.
pub fn one_fewest_end<L: Link, M: Link>()
    ensures { OneFewestEnd L.seen M.seen }
{
    one_answer();
    fewest_at_version();
}
