ghost use Rattle.std.specs.Prelude.{◌≡◌, ◌<◌, IfOk, IfSome, List, ℕ, length, map};
ghost use Rattle.gtfs_tables.specs.Fields.Columns.{text_in};
ghost use Rattle.gtfs_tables.specs.Fields.PairPlaces.{HavePairPlaces, is_same_pair, lent_pair};
ghost use Rattle.gtfs_tables.specs.Fields.Places.{first_place};

use crate::fields::columns::text;
use crate::fields::places::{first_places, place_of};
use gtfs_rows::Rows;
use lc_model::NoMemory;
use std::alloc::Global;
use std::collections::BTreeMap;

/// The fields of two columns, one pair for each row. A field is empty where there is no such column. Linear in the rows.
pub fn pairs<'a>(
    alloc: Global,
    rows: &'a Rows,
    first: Option<usize>,
    second: Option<usize>,
) -> Result<Vec<(&'a [u8], &'a [u8])>, NoMemory>
    requires first { IfSome first (λ c. c < length rows.now.names) }
    requires second { IfSome second (λ c. c < length rows.now.names) }
    ensures { IfOk result (λ pairs. map lent_pair pairs.items ≡ map (λ row. (text_in row first, text_in row second)) rows.now.rows) }
{
    let mut pairs = Vec::with_capacity(alloc, rows.len())?;
    'rows: for place in 0..rows.len() {
        pairs.push((text(rows, place, first), text(rows, place, second)))?;
    }
    Ok(pairs)
}

/// The first place of each of these pairs. Of n pairs: n log n.
pub fn pair_places<'a>(
    alloc: Global,
    pairs: &[(&'a [u8], &'a [u8])],
) -> Result<BTreeMap<(&'a [u8], &'a [u8]), usize>, NoMemory>
    ensures { IfOk result (HavePairPlaces (map lent_pair pairs.now)) }
{
    first_places(alloc, pairs)
}

/// The first place of this pair. Takes the logarithm of the pairs.
pub fn place_of_pair<'a>(
    places: &BTreeMap<(&'a [u8], &'a [u8]), usize>,
    pair: (&'a [u8], &'a [u8]),
) -> Option<usize>
    ensures { (pairs : List (List ℕ × List ℕ)) → HavePairPlaces pairs places.now → result ≡ first_place is_same_pair pairs (lent_pair pair.entry) }
{
    place_of(places, pair)
}
