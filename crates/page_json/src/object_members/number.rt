ghost use Rattle.std.specs.Prelude.{◌≡◌, ◌==◌, ◌<◌, length, slice_index, true, false, is_some, option_map, IsTrue};
ghost use Rattle.json.specs.Value.{items_view, members_view, value_view};
ghost use Rattle.serde_json.specs.Find.{as_i64, as_u64};
ghost use Rattle.serde_json.specs.Read.{float_of, number_from, number_of};
ghost use Rattle.serde_json.specs.View.{number_view};
ghost use Rattle.page_json.specs.ObjectMembers.View.{has_values, items_have_values, members_have_values, num_in};

use fast_float::Numeral;
use json::Value;
use serde_json::Number;

/// The number that a token of JSON writes, unless it is too large for a float. The call of `serde_json` that does this is private.
fn number_in(text: &str) -> Option<Number>
    ensures { option_map number_view result ≡ number_of text.now }
{
    let bytes = text.as_bytes();
    if has_minus(bytes) {
        negative(&Numeral::scan(&bytes[1..]))
    } else {
        unsigned(&Numeral::scan(bytes))
    }
}

fn has_minus(bytes: &[u8]) -> bool
    ensures value { result ≡ (slice_index bytes.now 0 == 45) }
    ensures len { IsTrue result → 0 < length bytes.now }
{
    !bytes.is_empty() && bytes[0] == b'-'
}

fn unsigned(numeral: &Numeral<'_>) -> Option<Number>
    ensures { option_map number_view result ≡ number_from false numeral.now }
{
    match numeral.to_u64() {
        Some(n) => Some(Number::from(n)),
        None => nearest(false, numeral),
    }
}

/// `-0` is a float.
fn negative(numeral: &Numeral<'_>) -> Option<Number>
    ensures { option_map number_view result ≡ number_from true numeral.now }
{
    if let Some(n) = numeral.to_i64(true) {
        if n < 0 {
            return Some(Number::from(n));
        }
    }
    nearest(true, numeral)
}

fn nearest(negative: bool, numeral: &Numeral<'_>) -> Option<Number>
    ensures { option_map number_view result ≡ float_of negative numeral.now }
{
    Number::from_f64(numeral.to_float::<f64>(negative))
}

/// The whole number of 64 bits that a token of JSON writes.
pub(crate) fn i64_of(text: &str) -> Option<i64>
    ensures { result ≡ as_i64 (num_in text.now) }
{
    match number_in(text) {
        Some(number) => number.as_i64(),
        None => None,
    }
}

/// The whole number of 64 bits that a token of JSON writes, if it is not negative.
pub(crate) fn u64_of(text: &str) -> Option<u64>
    ensures { result ≡ as_u64 (num_in text.now) }
{
    match number_in(text) {
        Some(number) => number.as_u64(),
        None => None,
    }
}

/// Whether the number that a token of JSON writes is not too large for a float.
fn has_value(text: &str) -> bool
    ensures { result ≡ is_some (number_of text.now) }
{
    number_in(text).is_some()
}

/// Whether each number of the tree has a value.
#[cycle(values)]
pub(crate) fn has_values(value: &Value<'_>) -> bool
    ensures { result ≡ has_values (value_view value.now) }
{
    match value {
        Value::Number(text) => has_value(text),
        Value::Array(items) => items_have_values(items),
        Value::Object(members) => members_have_values(members),
        Value::Null | Value::Bool(_) | Value::String(_) => true,
    }
}

#[cycle(values)]
fn items_have_values(items: &Vec<Value<'_>>) -> bool
    ensures { result ≡ items_have_values (items_view items.now.items) }
{
    for item in items {
        if !has_values(item) {
            return false;
        }
    }
    true
}

#[cycle(values)]
fn members_have_values(members: &Vec<(&str, Value<'_>)>) -> bool
    ensures { result ≡ members_have_values (members_view members.now.items) }
{
    for member in members {
        if !has_values(&member.1) {
            return false;
        }
    }
    true
}
