ghost use Rattle.std.specs.Prelude.{◌≡◌, IfOk};
ghost use Rattle.lc_model.specs.Connection.{NoneArrivesEarly, connections_of_calls};

use lc_model::{Call, Calls, Connection, Connections, NoMemory, Run, RunKey};
use std::alloc::Global;

/// The connections of these calls: from each to the next.
fn connections_of_calls(
    alloc: Global,
    key: &RunKey,
    calls: &[Call],
) -> Result<Vec<Connection>, NoMemory>
    ensures { IfOk result (λ list. list.items ≡ connections_of_calls key.now calls.now) }
{
    let mut connections = Vec::with_capacity(alloc, calls.len())?;
    for i in 1..calls.len() {
        connections.push(Connection::between(alloc, key, &calls[i - 1], &calls[i])?)?;
    }
    Ok(connections)
}

/// The connections of a run with these live calls: from each to the next, none of which arrives before the one before it departs. Linear in
/// the calls.
pub fn connections(alloc: Global, run: &Run, calls: &Calls) -> Result<Connections, NoMemory>
    requires { NoneArrivesEarly (connections_of_calls run.now.key calls.now) }
    ensures { IfOk result (λ list. list ≡ connections_of_calls run.now.key calls.now) }
{
    let list = connections_of_calls(alloc, &run.key, calls.as_slice())?;
    Ok(Connections::from_list(list))
}
