ghost use Rattle.std.specs.Prelude.{◌≡◌, option_and_then, option_map};
ghost use Rattle.serde_json.specs.Find.{as_array, as_i64, as_number, as_object, as_str, as_u64, get};
ghost use Rattle.page_json.specs.ObjectMembers.View.{items_view, members_view, view};

use crate::object_members::number::{i64_of, u64_of};
use json::Value;

/// The last member of that name, where the value is an object. Linear in the members.
pub fn member_at<'v, 't>(value: &'v Value<'t>, key: &str) -> Option<&'v Value<'t>>
    ensures { option_map (λ v. view v.now) result ≡ get key.now (view value.now) }
{
    value.get(key)
}

/// The text that the value is.
pub fn text_in<'t>(value: &Value<'t>) -> Option<&'t str>
    ensures { option_map (λ s. s.now) result ≡ as_str (view value.now) }
{
    value.as_str()
}

/// The items of the array that the value is.
pub(crate) fn items_in<'v, 't>(value: &'v Value<'t>) -> Option<&'v Vec<Value<'t>>>
    ensures { option_map (λ items. items_view items.now.items) result ≡ as_array (view value.now) }
{
    if let Value::Array(items) = value {
        Some(items)
    } else {
        None
    }
}

/// The members of the object that the value is.
pub(crate) fn members_in<'v, 't>(value: &'v Value<'t>) -> Option<&'v Vec<(&'t str, Value<'t>)>>
    ensures { option_map (λ members. members_view members.now.items) result ≡ as_object (view value.now) }
{
    if let Value::Object(members) = value {
        Some(members)
    } else {
        None
    }
}

/// The whole number of 64 bits that the value is.
pub(crate) fn i64_in(value: &Value<'_>) -> Option<i64>
    ensures { result ≡ option_and_then as_i64 (as_number (view value.now)) }
{
    if let Value::Number(text) = value {
        i64_of(text)
    } else {
        None
    }
}

/// The whole number of 64 bits that the value is, if it is not negative.
pub(crate) fn u64_in(value: &Value<'_>) -> Option<u64>
    ensures { result ≡ option_and_then as_u64 (as_number (view value.now)) }
{
    if let Value::Number(text) = value {
        u64_of(text)
    } else {
        None
    }
}
