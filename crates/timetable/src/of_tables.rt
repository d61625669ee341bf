//! What is made of the tables of a feed: the dates of its services, its runs, and the changes between its stops. Each call hands on to the
//! crate that makes it. That crate knows nothing of a feed as a whole, and need not wait for `gtfs_tables`.

ghost use Rattle.std.specs.Prelude.{◌≡◌, ◌≤◌, ℕ, IfErr, IfOk, List, OnOk, length};
ghost use Rattle.change_table.specs.ChangeRule.{change_of};
ghost use Rattle.change_table.specs.ChangeTable.{AreChangesOf, HasCause as IsChangeFault, count_of_changes};
ghost use Rattle.change_table.specs.declared.fault.TheConstants.{MOST_CHANGES};
ghost use Rattle.lc_model.specs.Change.{change_between};
ghost use Rattle.lc_model.specs.Connection.{connections_of};
ghost use Rattle.lc_model.specs.Run.{RunsForward};
ghost use Rattle.service_days.specs.Days.{AreDays};
ghost use Rattle.trip_calls.specs.LoadFault.{HasCause as IsRunsFault};
ghost use Rattle.trip_calls.specs.Plannable.{ArePlannable};
ghost use Rattle.trip_calls.specs.Runs.{AreRunsOf};
ghost use Rattle.trip_calls.specs.declared.load_fault.TheConstants.{MOST_CONNECTIONS};

use change_table::ChangeFault;
use gtfs_tables::Tables;
use lc_model::{Changes, NoMemory, Runs, ServiceDate};
use lc_time::Zone;
use service_days::Days;
use std::alloc::Global;
use trip_calls::LoadFault as RunsFault;

/// The dates, of so many from the first on, on which the services of the tables run. It takes the time of a sort of the days that it
/// finds. It takes two looks at each row of calendar.txt for each date, and a sort of the rows of calendar_dates.txt.
pub fn days(
    alloc: Global,
    tables: &Tables,
    first: ServiceDate,
    count: u32,
) -> Result<Days, NoMemory>
    ensures { IfOk result (AreDays tables.now.services.weekly tables.now.services.dates first count) }
{
    let services = &tables.services;
    service_days::days(
        alloc,
        services.weekly.as_slice(),
        services.dates.as_slice(),
        first,
        count,
    )
}

/// The runs of the tables on these days, in the zone, strictly ordered by their keys. Or that they have too many connections. It takes
/// the time of a sort of the runs, of a sort of the rows of frequencies.txt and of their starts. It takes that of all calls, and of eight
/// binary searches for each trip.
pub fn runs(alloc: Global, tables: &Tables, days: &Days, zone: &Zone) -> Result<Runs, RunsFault>
    requires { ArePlannable days.now }
    ensures are { IfOk result (AreRunsOf tables.now.trips tables.now.stop_times tables.now.frequencies days.now zone.now) }
    ensures forward { IfOk result RunsForward }
    ensures room { IfOk result (λ runs. length (connections_of runs) ≤ MOST_CONNECTIONS) }
    ensures fault { IfErr result (IsRunsFault tables.now.trips tables.now.stop_times tables.now.frequencies days.now zone.now) }
{
    trip_calls::runs(
        alloc,
        &tables.trips,
        &tables.stop_times,
        &tables.frequencies,
        days,
        zone,
    )
}

/// The changes between the stops of the tables, with a default number of seconds for a change at a stop or within a station. Or that
/// there are too many. It takes the time of a sort of the rows of transfers.txt and of the stops. For each stop it takes that of a sort of
/// the stops that its rows, those of its parent and its station name.
pub fn changes(alloc: Global, tables: &Tables, default: u32) -> Result<Changes, ChangeFault>
    ensures are { IfOk result (AreChangesOf tables.now.stops tables.now.transfers default) }
    ensures between { IfOk result (λ changes. (from to : List ℕ) →
        change_between changes from to ≡ change_of tables.now.stops tables.now.transfers default from to) }
    ensures room { OnOk result (count_of_changes tables.now.stops tables.now.transfers default ≤ MOST_CHANGES) }
    ensures fault { IfErr result (λ fault. IsChangeFault fault (count_of_changes tables.now.stops tables.now.transfers default)) }
{
    change_table::changes(alloc, &tables.stops, &tables.transfers, default)
}
