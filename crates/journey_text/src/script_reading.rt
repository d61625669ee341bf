ghost use Rattle.std.specs.Prelude.{◌≡◌, ◌+◌, ◌<◌, ◌^◌, ◌⊎◌, Err, IfErr, IfOk, IsFalse, IsOkUnless, List, All};
ghost use Rattle.journey_text.specs.ScriptReading.{HasFault, HaveFault, SaysScript};
ghost use Rattle.journey_text.specs.Script.{NamesNone, SayRecords, TurnsAreOfClients, clients_of};
ghost use Rattle.journey_text.specs.declared.script_fault.ScriptFault.{ScriptFault as Fault};
ghost use Rattle.journey_text.specs.declared.script.Record.{Record as Said};

use crate::script::{Record, Script};
use crate::script_fault::ScriptFault;
use crate::script_row::record_at;
use gtfs_rows::Records;
use lc_model::Items;
use std::alloc::Global;

/// Reads a script. Where `updates` is false it may name no message. Linear in the bytes.
pub fn read_script(alloc: Global, bytes: &[u8], updates: bool) -> Result<Script, ScriptFault>
    ensures said { IfOk result (SaysScript bytes.now updates) }
    ensures fault { IfErr result (λ fault. (fault ≡ ScriptFault.NoMemory) ⊎ HasFault bytes.now updates fault) }

    // Where the bytes say a script there is no fault but running out of memory, and where they have one there is no other.
    ensures script { (script : List Said) → SaysScript bytes.now updates script → IsOkUnless result ScriptFault.NoMemory }
    ensures only { (fault : Fault) → HasFault bytes.now updates fault → (result ≡ Err fault) ⊎ (result ≡ Err ScriptFault.NoMemory) }

    // No other reading of the bytes gives another script.
    ensures same { IfOk result (λ said. (script : List Said) → SaysScript bytes.now updates script → script ≡ said) }

    // What one who follows the script counts on.
    ensures turns { IfOk result TurnsAreOfClients }
    ensures messages { IsFalse updates → IfOk result (All NamesNone) }
{
    let rows = Records::read(alloc, bytes)?;
    records_of(alloc, &rows, updates)
}

/// The records that rows say.
fn records_of(alloc: Global, rows: &Records, updates: bool) -> Result<Script, ScriptFault>
    ensures said { IfOk result (SayRecords updates 0 rows.now) }
    ensures fault { IfErr result (λ fault. (fault ≡ ScriptFault.NoMemory) ⊎ HaveFault updates rows.now fault) }
{
    let mut script = Vec::new(alloc);
    let mut clients = 0;
    'rows: for place in 0..rows.len() {
        let Some(said) = record_at(alloc, rows, place, updates, clients)? else {
            return Err(ScriptFault::Wrong {
                row: place as u64 + 1,
            });
        };
        clients = clients_behind(clients, &said);
        script.push(said)?;
    }
    Ok(Items::from_list(script))
}

/// How many clients there are after a record.
fn clients_behind(clients: u64, said: &Record) -> u64
    requires { clients + 1 < 2 ^ 64 }
    ensures { result ≡ clients + clients_of said.now }
{
    match said {
        Record::Ask(_) => clients + 1,
        Record::Update(_) | Record::Turn(_) => clients,
    }
}
