ghost use Rattle.std.specs.Prelude.{IfOk};
ghost use Rattle.std.specs.List.{All};
ghost use Rattle.convoy.specs.Finish.{HasOutcome};
ghost use Rattle.cli_replay.specs.ReplayLaws.Played.{HasEndedSo, HaveEndedSo};

use cli_ask::ClientEnd;
use convoy::{Convoy, Member};
use lc_model::NoMemory;
use std::alloc::Global;

/// How the clients ended, in their order.
pub fn ends_of(alloc: Global, convoy: Convoy) -> Result<Vec<ClientEnd>, NoMemory>
    requires { All HasOutcome convoy.members }
    ensures { IfOk result (λ ends. HaveEndedSo convoy.members ends.items) }
{
    let members = convoy.into_members();
    let mut ends = Vec::with_capacity(alloc, members.len())?;
    'members: for member in members {
        ends.push(end_of(member))?;
    }
    Ok(ends)
}

/// How a client ended.
fn end_of(member: Member) -> ClientEnd
    requires { HasOutcome member }
    ensures { HasEndedSo member result }
{
    let Member { client, exchanges } = member;
    let version = client.version();
    let Some(outcome) = client.into_outcome() else {
        unreachable!()
    };
    ClientEnd {
        version,
        outcome,
        exchanges,
    }
}
