ghost use Rattle.std.specs.Prelude.{IfOk, map};
ghost use Rattle.gtfs_tables.specs.Fields.TextPlaces.{HavePlaces};

use crate::fields::text_places::text_places;
use lc_model::{Keyed, NoMemory, keys_of};
use std::alloc::Global;
use std::collections::BTreeMap;

/// The first places of the ids of these items. Of n items: n log n.
pub fn places_of_ids<'a, T: Keyed>(
    alloc: Global,
    items: &'a [T],
) -> Result<BTreeMap<&'a [u8], usize>, NoMemory>
    ensures { IfOk result (HavePlaces (map T.key items.now)) }
{
    let ids = keys_of(alloc, items)?;
    text_places(alloc, ids.as_slice())
}
