ghost use Rattle.std.specs.Prelude.{◌≡◌, IfOk};
ghost use Rattle.std.specs.BTreeMap.{get};
ghost use Rattle.std.specs.Ordering.{is_eq};
ghost use Rattle.gtfs_tables.specs.Fields.Places.{first_place, is_before as comes_before};

use lc_model::NoMemory;
use std::alloc::Global;
use std::collections::BTreeMap;

/// The first place of each of these keys. Of n keys: n log n.
pub fn first_places<K: Ord + Copy + Drop>(
    alloc: Global,
    keys: &[K],
) -> Result<BTreeMap<K, usize>, NoMemory>
    ensures { IfOk result (λ places. (key : K) → get K.cmp places key ≡ first_place (λ x y. is_eq (K.cmp x y)) keys.now key) }
{
    let mut places = BTreeMap::new(alloc);
    // From the last key to the first, so that of several places of a key the first stays.
    'keys: for place in (0..keys.len()).rev() {
        places.insert(keys[place], place)?;
    }
    Ok(places)
}

/// The first place of this key. Takes the logarithm of the keys.
pub fn place_of<K: Ord + Copy>(places: &BTreeMap<K, usize>, key: K) -> Option<usize>
    ensures { result ≡ get K.cmp places.now key }
{
    places.get(&key).copied()
}

/// Whether a first place comes before this one.
pub fn is_before(first: Option<usize>, place: usize) -> bool
    ensures { result ≡ comes_before first place }
{
    match first {
        Some(first) => first < place,
        None => false,
    }
}
