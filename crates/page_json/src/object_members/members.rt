ghost use Rattle.std.specs.Prelude.{◌≡◌, ◌≢◌, None, Some, Ok, Err, OnOk, IfOk, IfErr};
ghost use Rattle.serde_json.specs.Data.{Members};
ghost use Rattle.serde_json.specs.Find.{as_array, as_str};
ghost use Rattle.page_json.specs.ObjectMembers.Members.{delay_of, formed, list_of, object_under, text_of};
ghost use Rattle.page_json.specs.ObjectMembers.Reading.{Meets, exactly};
ghost use Rattle.page_json.specs.ObjectMembers.View.{items_view, view};
ghost use Rattle.page_json.specs.declared.object_members.fault.PageFault.TheVariants.{BadMember as bad, NoMember as missing, NoMemory as OutOfMemory};

use crate::object_members::PageFault;
use crate::object_members::tree::{i64_in, items_in, member_at, members_in, text_in};
use json::Value;
use lc_model::Text;
use std::alloc::Global;

/// That a member is missing.
pub fn no_member(alloc: Global, name: &str) -> PageFault
    ensures { result ≢ OutOfMemory → result ≡ missing name.now }
{
    match String::from_str(alloc, name) {
        Ok(name) => PageFault::NoMember {
            name: Text::from_string(name),
        },
        Err(_) => PageFault::NoMemory,
    }
}

/// That a member has another form.
pub fn bad_member(alloc: Global, name: &str) -> PageFault
    ensures { result ≢ OutOfMemory → result ≡ bad name.now }
{
    match String::from_str(alloc, name) {
        Ok(name) => PageFault::BadMember {
            name: Text::from_string(name),
        },
        Err(_) => PageFault::NoMemory,
    }
}

/// What was read of a member; where nothing was, the member is bad.
pub fn or_bad<T: Drop>(alloc: Global, read: Option<T>, key: &str) -> Result<T, PageFault>
    ensures ok { IfOk result (λ x. read ≡ Some x) }
    ensures err { IfErr result (λ fault. fault ≢ OutOfMemory → (read ≡ None) × (fault ≡ bad key.now)) }
{
    match read {
        Some(said) => Ok(said),
        None => Err(bad_member(alloc, key)),
    }
}

/// That the value is an object.
pub fn object_under(alloc: Global, value: &Value<'_>, name: &str) -> Result<(), PageFault>
    ensures ok { OnOk result ((members : Members) × (object_under name.now (view value.now) ≡ Ok members)) }
    ensures err { IfErr result (λ fault. fault ≢ OutOfMemory → object_under name.now (view value.now) ≡ Err fault) }
{
    match members_in(value) {
        Some(_) => Ok(()),
        None => Err(bad_member(alloc, name)),
    }
}

/// The text of a member that is needed.
pub fn needed_text<'v>(alloc: Global, value: &'v Value<'_>, key: &str) -> Result<&'v str, PageFault>
    ensures ok { IfOk result (λ text. text_of key.now (view value.now) ≡ Ok text.now) }
    ensures err { IfErr result (λ fault. fault ≢ OutOfMemory → text_of key.now (view value.now) ≡ Err fault) }
{
    match member_at(value, key) {
        Some(member) => text_under(alloc, member, key),
        None => Err(no_member(alloc, key)),
    }
}

/// The text that a member is.
pub fn text_under<'v>(alloc: Global, member: &'v Value<'_>, key: &str) -> Result<&'v str, PageFault>
    ensures ok { IfOk result (λ text. formed key.now (as_str (view member.now)) ≡ Ok text.now) }
    ensures err { IfErr result
        (λ fault. fault ≢ OutOfMemory → formed key.now (as_str (view member.now)) ≡ Err fault) }
{
    match text_in(member) {
        Some(text) => Ok(text),
        None => Err(bad_member(alloc, key)),
    }
}

/// The list of a member that is needed. It is a `Vec`, since no `?` on a slice of values that borrow is proved yet.
pub fn needed_list<'v, 't>(
    alloc: Global,
    value: &'v Value<'t>,
    key: &str,
) -> Result<&'v Vec<Value<'t>>, PageFault>
    ensures ok { IfOk result (λ list. list_of key.now (view value.now) ≡ Ok (items_view list.now.items)) }
    ensures err { IfErr result (λ fault. fault ≢ OutOfMemory → list_of key.now (view value.now) ≡ Err fault) }
{
    match member_at(value, key) {
        Some(member) => list_under(alloc, member, key),
        None => Err(no_member(alloc, key)),
    }
}

/// The list that a member is.
fn list_under<'v, 't>(
    alloc: Global,
    member: &'v Value<'t>,
    key: &str,
) -> Result<&'v Vec<Value<'t>>, PageFault>
    ensures ok { IfOk result (λ list. formed key.now (as_array (view member.now)) ≡ Ok (items_view list.now.items)) }
    ensures err { IfErr result
        (λ fault. fault ≢ OutOfMemory → formed key.now (as_array (view member.now)) ≡ Err fault) }
{
    match items_in(member) {
        Some(list) => Ok(list),
        None => Err(bad_member(alloc, key)),
    }
}

/// A delay in seconds, or 0 where the member is missing.
pub fn delay_at(alloc: Global, value: &Value<'_>, key: &str) -> Result<i64, PageFault>
    ensures { Meets (exactly (delay_of key.now (view value.now))) result }
{
    match member_at(value, key) {
        Some(member) => or_bad(alloc, i64_in(member), key),
        None => Ok(0),
    }
}
