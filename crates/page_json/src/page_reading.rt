ghost use Rattle.std.specs.Prelude.{◌≡◌, ◌<◌, ℕ, List, codes, Some, IfOk, IfSome};
ghost use Rattle.lc_model.specs.Connection.{InDepartureOrder, NoneArrivesEarly, departure_cmp};
ghost use Rattle.lc_model.specs.declared.page.PageName.{PageName as Named};
ghost use Rattle.lc_model.specs.Disorder.{first_disorder};
ghost use Rattle.page_json.specs.ObjectMembers.Disorder.{unless_disorder};
ghost use Rattle.page_json.specs.ObjectMembers.Members.{said_at, said_if_there, said_in};
ghost use Rattle.page_json.specs.PageReading.{page_in, page_of_bytes};
ghost use Rattle.page_json.specs.ObjectMembers.Reading.{Meets, exactly, gives};
ghost use Rattle.page_json.specs.ObjectMembers.View.{view};
ghost use Rattle.page_json.specs.Says.{SaysLink, SaysPage};
ghost use Rattle.page_json.specs.Valid.{IsOfVersion, IsValidPage};
ghost use Rattle.page_json.specs.declared.page.Page.{Page as Stated};

use crate::Page;
use crate::connection_reading::connections_in;
use crate::object_members::{
    PageFault, json_in, member_at, needed_list, needed_text, object_under, or_bad, text_under,
};
use crate::written_page::written_page;
use connection_uri::{Base, read_page_url};
use json::{Scratch, Value};
use lc_model::{Moment, PageName, first_disorder};
use std::alloc::Global;

/// The page whose URL the text is.
fn said_page(base: &Base, text: &[u8]) -> Option<PageName>
    ensures said { IfSome result (SaysPage base.now text.now) }
    ensures exact { (name : Named) → SaysPage base.now text.now name → result ≡ Some name }
{
    let name = read_page_url(base, text)?;
    let _version = name.version.seconds();
    let _departs = name.departs.seconds();
    Some(name)
}

/// The page of this version whose URL the text is.
fn said_link(base: &Base, text: &[u8], version: Moment) -> Option<PageName>
    ensures said { IfSome result (SaysLink base.now version text.now) }
    ensures exact { (name : Named) → SaysLink base.now version text.now name → result ≡ Some name }
{
    match said_page(base, text) {
        Some(name) if name.version == version => Some(name),
        _ => None,
    }
}

/// The page that a member's URL names.
fn page_at(alloc: Global, base: &Base, value: &Value<'_>) -> Result<PageName, PageFault>
    ensures { Meets (said_at (SaysPage base.now) (codes "@id") (view value.now)) result }
{
    let text = needed_text(alloc, value, "@id")?;
    or_bad(alloc, said_page(base, text.as_bytes()), "@id")
}

/// The page of this version that a member's URL names.
fn link_in(
    alloc: Global,
    base: &Base,
    member: &Value<'_>,
    key: &str,
    version: Moment,
) -> Result<PageName, PageFault>
    ensures said { Meets (said_in (SaysLink base.now version) key.now (view member.now)) result }
    ensures version { IfOk result (λ name. name.version ≡ version) }
{
    let text = text_under(alloc, member, key)?;
    or_bad(alloc, said_link(base, text.as_bytes(), version), key)
}

/// The page of this version that a member's URL names, if the member is there.
fn link_at(
    alloc: Global,
    base: &Base,
    value: &Value<'_>,
    key: &str,
    version: Moment,
) -> Result<Option<PageName>, PageFault>
    ensures said { Meets (said_if_there (SaysLink base.now version) key.now (view value.now)) result }
    ensures version { IfOk result (IsOfVersion version) }
{
    match member_at(value, key) {
        Some(member) => Ok(Some(link_in(alloc, base, member, key, version)?)),
        None => Ok(None),
    }
}

/// The page, unless its connections are not in departure order.
fn in_order(page: Page) -> Result<Page, PageFault>
    ensures said { Meets (exactly (unless_disorder (first_disorder departure_cmp page.list) page)) result }
    ensures same { IfOk result (λ same. same ≡ page) }
    ensures in_order { IfOk result (λ page. InDepartureOrder page.list) }
    ensures forward { IfOk result (λ page. NoneArrivesEarly page.list) }
{
    match first_disorder(page.list.as_slice()) {
        Some(place) => Err(PageFault::NotOrdered { place }),
        None => Ok(page),
    }
}

/// The page that a JSON value says.
fn page_in(alloc: Global, base: &Base, value: &Value<'_>) -> Result<Page, PageFault>
    ensures said { Meets (page_in base.now (view value.now)) result }
    ensures valid { IfOk result IsValidPage }
{
    object_under(alloc, value, "page")?;
    let name = page_at(alloc, base, value)?;
    let graph = needed_list(alloc, value, "@graph")?;
    let list = connections_in(alloc, base, graph)?;
    let next = link_at(alloc, base, value, "hydra:next", name.version)?;
    let previous = link_at(alloc, base, value, "hydra:previous", name.version)?;
    in_order(Page {
        name,
        next,
        previous,
        list,
    })
}

/// The page that a text of JSON says, or the first fault of the text. Linear in the text. What `page_text` wrote is read by
/// a guess that is written again, and what others wrote as a tree.
pub fn read_page(alloc: Global, base: &Base, bytes: &[u8]) -> Result<Page, PageFault>
    ensures said { Meets (page_of_bytes base.now bytes.now) result }
    ensures valid { IfOk result IsValidPage }

    // Where the bytes say a page, as those of `page_text` do, that page is read.
    ensures exact { (page : Stated) → page_of_bytes base.now bytes.now (Ok page) → Meets (gives page) result }
{
    match written_page(alloc, base, bytes)? {
        Some(page) => Ok(page),
        None => read_tree(alloc, base, bytes),
    }
}

/// The page that a text of JSON says, whoever wrote it, or the first fault of the text.
fn read_tree(alloc: Global, base: &Base, bytes: &[u8]) -> Result<Page, PageFault>
    ensures said { Meets (page_of_bytes base.now bytes.now) result }
    ensures valid { IfOk result IsValidPage }
{
    let mut scratch = Scratch::new(alloc);
    let value = json_in(alloc, bytes, &mut scratch)?;
    page_in(alloc, base, &value)
}
