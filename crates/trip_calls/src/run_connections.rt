ghost use Rattle.std.specs.Prelude.{◌≡◌, ◌++◌, All, IfOk, OnOk};
ghost use Rattle.lc_model.specs.Call.{InSequence};
ghost use Rattle.lc_model.specs.Connection.{AreConnectionsOf, connections_of, connections_of_calls, departure_cmp};
ghost use Rattle.lc_model.specs.declared.run.Run.{Run};
ghost use Rattle.lc_model.specs.Run.{RunsForward};

use lc_model::{Call, Connection, Connections, NoMemory, Run, RunKey, Runs};
use std::alloc::Global;
use std::cmp::Ordering;

/// Adds the connections of a run: from each call to the next.
fn push_connections(
    alloc: Global,
    connections: &mut Vec<Connection>,
    key: &RunKey,
    calls: &[Call],
) -> Result<(), NoMemory>
    ensures { OnOk result (connections.new.items
        ≡ connections.old.items ++ connections_of_calls key.now calls.now) }
{
    for i in 1..calls.len() {
        connections.push(Connection::between(alloc, key, &calls[i - 1], &calls[i])?)?;
    }
    Ok(())
}

fn by_departure(a: &Connection, b: &Connection) -> Ordering
    ensures { result ≡ departure_cmp a.now b.now }
{
    let by_time = a.dep.cmp(&b.dep);
    by_time.then_with(|| a.key.cmp(&b.key).then(a.seq.cmp(&b.seq)))
}

/// How many connections the runs have, for which room is made.
fn room_of(runs: &[Run]) -> usize {
    let mut count: usize = 0;
    for run in runs {
        let pairs = run.calls.as_slice().len().saturating_sub(1);
        count = count.saturating_add(pairs);
    }
    count
}

fn all_connections(alloc: Global, runs: &[Run]) -> Result<Vec<Connection>, NoMemory>
    ensures are { IfOk result (λ list. list.items ≡ connections_of runs.now) }
    ensures in_sequence { OnOk result (All (λ (r : Run). InSequence r.calls) runs.now) }
{
    let mut connections = Vec::with_capacity(alloc, room_of(runs))?;
    for run in runs {
        let calls = run.calls.as_slice();
        push_connections(alloc, &mut connections, &run.key, calls)?;
    }
    Ok(connections)
}

/// The connections of runs, from each call to the next, in strict departure order: by departure, trip, service
/// date, start and sequence (Linked Connections 1.0). It takes the time of a sort.
pub fn connections(alloc: Global, runs: &Runs) -> Result<Connections, NoMemory>
    requires { RunsForward runs.now }
    ensures { IfOk result (AreConnectionsOf runs.now) }
{
    let mut connections = all_connections(alloc, runs.as_slice())?;
    connections.sort_unstable_by(|a, b| by_departure(a, b));
    Ok(Connections::from_list(connections))
}
