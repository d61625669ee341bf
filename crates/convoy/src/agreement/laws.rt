ghost use Rattle.convoy.specs.Agreement.Laws.{AddedAgrees, EndKeepsAgreement, LaterAgrees, NoneAgrees, RoundsKeepAgreement, TurnKeepsAgreement};
ghost use Rattle.convoy.specs.Agreement.OneClient.{OneClientEndsRight};

use crate::steps_keep_agreement;
use lc_world::Link;

/// A convoy without clients agrees with every side, and a client more may come. What agrees with a side agrees with each later one.
pub fn agreement_begins()
    ensures none { NoneAgrees }
    ensures added { AddedAgrees }
    ensures later { LaterAgrees }
{
    steps_keep_agreement();
}

/// Over an honest link a convoy that agrees with the link's side agrees, after each turn and after `finish`, with the side that is left. Over
/// a quiet one that is the same side.
pub fn turns_keep_agreement<L: Link>()
    ensures turn { TurnKeepsAgreement L.seen }
    ensures end { EndKeepsAgreement L.seen }
    ensures rounds { RoundsKeepAgreement L.seen }
{}

/// One client alone over a quiet link asks exactly its wants, and its outcome is right at the version of its known moment.
pub fn one_client<L: Link>()
    ensures { OneClientEndsRight L.seen }
{
    steps_keep_agreement();
}
