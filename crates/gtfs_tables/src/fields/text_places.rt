ghost use Rattle.std.specs.Prelude.{◌≡◌, ◌<◌, ℕ, IfOk, IfSome, List, length, map};
ghost use Rattle.std.specs.Str.{bytes_eq};
ghost use Rattle.gtfs_tables.specs.Fields.Columns.{text_in};
ghost use Rattle.gtfs_tables.specs.Fields.Places.{first_place, is_unknown as is_none_of};
ghost use Rattle.gtfs_tables.specs.Fields.TextPlaces.{HavePlaces};

use crate::fields::columns::text;
use crate::fields::places::{first_places, place_of};
use gtfs_rows::Rows;
use lc_model::NoMemory;
use std::alloc::Global;
use std::collections::BTreeMap;

/// The fields of a column, one for each row, empty where there is no such column. Linear in the rows.
pub fn texts<'a>(
    alloc: Global,
    rows: &'a Rows,
    column: Option<usize>,
) -> Result<Vec<&'a [u8]>, NoMemory>
    requires { IfSome column (λ c. c < length rows.now.names) }
    ensures { IfOk result (λ texts. map (λ text. text.now) texts.items ≡ map (λ row. text_in row column) rows.now.rows) }
{
    let mut texts = Vec::with_capacity(alloc, rows.len())?;
    'rows: for place in 0..rows.len() {
        texts.push(text(rows, place, column))?;
    }
    Ok(texts)
}

/// The first place of each of these texts. Of n texts: n log n.
pub fn text_places<'a>(
    alloc: Global,
    texts: &[&'a [u8]],
) -> Result<BTreeMap<&'a [u8], usize>, NoMemory>
    ensures { IfOk result (HavePlaces (map (λ text. text.now) texts.now)) }
{
    first_places(alloc, texts)
}

/// The first place of this text. Takes the logarithm of the texts.
pub fn place_of_text<'a>(places: &BTreeMap<&'a [u8], usize>, text: &'a [u8]) -> Option<usize>
    ensures { (texts : List (List ℕ)) → HavePlaces texts places.now → result ≡ first_place bytes_eq texts text.now }
{
    place_of(places, text)
}

/// Whether a text that is not empty is none of the texts. Takes the logarithm of the texts.
pub fn is_unknown<'a>(places: &BTreeMap<&'a [u8], usize>, text: &'a [u8]) -> bool
    ensures { (texts : List (List ℕ)) → HavePlaces texts places.now → result ≡ is_none_of texts text.now }
{
    !text.is_empty() && place_of_text(places, text).is_none()
}
