ghost use Rattle.std.specs.Prelude.{IfOk, OnOk};
ghost use Rattle.version_store.specs.Filed.{PutsText};
ghost use Rattle.version_store.specs.Trips.{HasTripsOf};

use lc_model::{NoMemory, RunKey};
use std::alloc::Global;
use std::collections::BTreeSet;

/// Puts the trip of a key.
fn put_trip<'a>(trips: &mut BTreeSet<&'a [u8]>, key: &'a RunKey) -> Result<(), NoMemory>
    ensures { OnOk result (PutsText key.now.trip trips.old trips.new) }
{
    trips.insert(key.trip.bytes())?;
    Ok(())
}

/// The trips of the keys. Takes the time of a sort of them.
pub(crate) fn trips_of<'a>(
    alloc: Global,
    keys: &'a BTreeSet<RunKey>,
) -> Result<BTreeSet<&'a [u8]>, NoMemory>
    ensures { IfOk result (HasTripsOf keys.now.keys) }
{
    let mut trips = BTreeSet::new(alloc);
    for key in keys {
        put_trip(&mut trips, key)?;
    }
    Ok(trips)
}
