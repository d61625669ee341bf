ghost use Rattle.std.specs.Prelude.{◌≡◌, ◌-◌, IfErr, IfOk, OnOk, length};
ghost use Rattle.change_table.specs.ChangeTable.{AreChangesOf};
ghost use Rattle.lc_model.specs.Connection.{connections_of};
ghost use Rattle.lc_model.specs.StopsDoc.{NamesItsStops};
ghost use Rattle.timetable.specs.Made.{FailsToMake, FailsToMakeChanges, FailsToMakeRuns};
ghost use Rattle.timetable.specs.Scope.{IsWindow};
ghost use Rattle.timetable.specs.Timetable.{HasFewChanges, HaveFewConnections, IsTimetableOf, RunsAre};
ghost use Rattle.lc_model.specs.Run.{RunsForward};

use crate::of_tables::{changes, days, runs};
use crate::{LoadFault, Scope, Timetable};
use change_table::ChangeFault;
use gtfs_tables::{Tables, What};
use lc_model::{Call, Changes, Run, Runs, StopsDoc};
use lc_time::Zone;
use std::alloc::Global;
use trip_calls::LoadFault as RunsFault;

// The runs of a timetable, how many connections they have, and the changes between its stops.
#[derive(Drop)]
struct Plan {
    runs: Runs,
    connections: u64,
    changes: Changes,
    ghost forward: { RunsForward runs },
}

/// The timetable of the tables in the scope, by the clock of the zone.
pub(crate) fn timetable_of(
    alloc: Global,
    scope: &Scope,
    zone: Zone,
    tables: Tables,
) -> Result<Timetable, LoadFault>
    requires { IsWindow scope.now.first scope.now.days }
    ensures made { IfOk result (IsTimetableOf scope.now zone tables) }
    ensures fault { IfErr result (FailsToMake scope.now zone tables) }
{
    match plan_of(alloc, scope, &zone, &tables) {
        Ok(plan) => Ok(Timetable {
            zone,
            runs: plan.runs,
            connections: plan.connections,
            trips: tables.trips.as_slice().len() as u64,
            left_out: tables.left_out,
            doc: StopsDoc {
                stops: tables.stops,
                changes: plan.changes,
            },
        }),
        Err(fault) => Err(fault),
    }
}

// What is made of the tables in the scope, by the clock of the zone.
fn plan_of(alloc: Global, scope: &Scope, zone: &Zone, tables: &Tables) -> Result<Plan, LoadFault>
    requires { IsWindow scope.now.first scope.now.days }
    ensures runs { IfOk result (λ plan. RunsAre scope.now zone.now tables.now plan.runs) }
    ensures connections { IfOk result (λ plan. plan.connections ≡ length (connections_of plan.runs)) }
    ensures few_connections { IfOk result (λ plan. HaveFewConnections plan.runs) }
    ensures changes { IfOk result (λ plan. AreChangesOf tables.now.stops tables.now.transfers scope.now.change plan.changes) }
    ensures known { IfOk result (λ plan. ∥ NamesItsStops tables.now.stops plan.changes ∥₁) }
    ensures few_changes { OnOk result (HasFewChanges scope.now tables.now) }
    ensures fault { IfErr result (FailsToMake scope.now zone.now tables.now) }
{
    let runs = runs_of(alloc, scope, zone, tables)?;
    let connections = count_connections(runs.as_slice());
    let changes = changes_of(alloc, scope, tables)?;
    Ok(Plan {
        runs,
        connections,
        changes,
    })
}

// The runs of the tables in the window of the scope.
fn runs_of(alloc: Global, scope: &Scope, zone: &Zone, tables: &Tables) -> Result<Runs, LoadFault>
    requires { IsWindow scope.now.first scope.now.days }
    ensures are { IfOk result (RunsAre scope.now zone.now tables.now) }
    ensures forward { IfOk result RunsForward }
    ensures few { IfOk result HaveFewConnections }
    ensures fault { IfErr result (FailsToMakeRuns scope.now zone.now tables.now) }
{
    let days = days(alloc, tables, scope.first, scope.days)?;
    match runs(alloc, tables, &days, zone) {
        Ok(runs) => Ok(runs),
        Err(RunsFault::TooManyConnections { count }) => Err(LoadFault::TooLarge {
            what: What::Connections,
            count,
        }),
        Err(RunsFault::NoMemory) => Err(LoadFault::NoMemory),
    }
}

// The changes between the stops of the tables.
fn changes_of(alloc: Global, scope: &Scope, tables: &Tables) -> Result<Changes, LoadFault>
    ensures are { IfOk result (AreChangesOf tables.now.stops tables.now.transfers scope.now.change) }
    ensures known { IfOk result (λ changes. ∥ NamesItsStops tables.now.stops changes ∥₁) }
    ensures few { OnOk result (HasFewChanges scope.now tables.now) }
    ensures fault { IfErr result (FailsToMakeChanges scope.now tables.now) }
{
    match changes(alloc, tables, scope.change) {
        Ok(changes) => Ok(changes),
        Err(ChangeFault::TooManyChanges { count }) => Err(LoadFault::TooLarge {
            what: What::Changes,
            count,
        }),
        Err(ChangeFault::NoMemory) => Err(LoadFault::NoMemory),
    }
}

// How many connections the runs have. Linear in the runs.
fn count_connections(runs: &[Run]) -> u64
    requires { HaveFewConnections runs.now }
    ensures { result ≡ length (connections_of runs.now) }
{
    let mut count = 0;
    for run in runs {
        count += pairs(run.calls.as_slice());
    }
    count
}

// How many pairs of consecutive calls there are.
fn pairs(calls: &[Call]) -> u64
    ensures { result ≡ length calls.now - 1 }
{
    calls.len().saturating_sub(1) as u64
}
