ghost use Rattle.std.specs.Prelude.{◌≡◌, codes};
ghost use Rattle.cli_replay.specs.Planning.Laws.{CountsAreGrowth, RelaysPlanRight};
ghost use Rattle.cli_replay.specs.Planning.Relayed.{counts_line_of};

use lc_world::Link;
use page_relay::{counts_are_since, new_relays_are_honest};

/// Over every honest link a relay of it is honest. So clients that plan over the relay end rightly, by the statement of `plan` over an honest link.
pub fn relays_plan_right<L: Link>()
    ensures { RelaysPlanRight L.seen }
{
    new_relays_are_honest::<L>();
}

/// Where the link handed in records exchanges, as many more as the second count says.
pub fn counts_are_growth<L: Link>()
    ensures { CountsAreGrowth L.seen }
{
    counts_are_since::<L>();
}

/// The line of the counts of two clients with four exchanges each, of which five were handed on.
pub fn worked_counts()
    ensures { counts_line_of 8 5 ≡ codes "relayed 8 forwarded 5\n" }
{}
