ghost use Rattle.std.specs.Prelude.{◌≡◌, ◌++◌, IfOk, OnOk};
ghost use Rattle.std.specs.Str.{IsUtf8};
ghost use Rattle.std.specs.String.{string_bytes};
ghost use Rattle.json.specs.Print.{escape};
ghost use Rattle.page_json.specs.Fronts.{fronts_under};
ghost use Rattle.page_json.specs.PageReading.{page_of_bytes};
ghost use Rattle.page_json.specs.PageWriting.{link_part, page_part, search_part, url_part, view_part};
ghost use Rattle.page_json.specs.Sound.{IsSoundPage};
ghost use Rattle.page_json.specs.Tree.{page_text_of};
ghost use Rattle.page_json.specs.Valid.{IsValidPage};

use crate::Page;
use crate::connection_writing::append_connections;
use crate::fronts::{Fronts, fronts_of};
use crate::sound::{sound_link, sound_name};
use connection_uri::{Base, append_moment};
use lc_model::{NoMemory, PageName};
use std::alloc::Global;

/// About the bytes of a page's text beside its connections, and of a connection's text beside the bases in it.
const PAGE_BYTES: usize = 2048;

const CONNECTION_BYTES: usize = 400;

/// A page up to its connections: what its short names mean.
const HEAD: &str = "{\"@context\":{\
\"Connection\":\"lc:Connection\",\
\"arrivalDelay\":\"lc:arrivalDelay\",\
\"arrivalStop\":{\"@id\":\"lc:arrivalStop\",\"@type\":\"@id\"},\
\"arrivalTime\":{\"@id\":\"lc:arrivalTime\",\"@type\":\"xsd:dateTime\"},\
\"departureDelay\":\"lc:departureDelay\",\
\"departureStop\":{\"@id\":\"lc:departureStop\",\"@type\":\"@id\"},\
\"departureTime\":{\"@id\":\"lc:departureTime\",\"@type\":\"xsd:dateTime\"},\
\"gtfs\":\"http://vocab.gtfs.org/terms#\",\
\"gtfs:dropOffType\":{\"@type\":\"@id\"},\
\"gtfs:pickupType\":{\"@type\":\"@id\"},\
\"gtfs:trip\":{\"@type\":\"@id\"},\
\"hydra\":\"http://www.w3.org/ns/hydra/core#\",\
\"hydra:next\":{\"@type\":\"@id\"},\
\"hydra:previous\":{\"@type\":\"@id\"},\
\"lc\":\"http://semweb.mmlab.be/ns/linkedconnections#\",\
\"xsd\":\"http://www.w3.org/2001/XMLSchema#\"},\
\"@graph\":";

/// How other pages are asked for, up to the base.
const SEARCH: &str = ",\"hydra:search\":{\
\"@type\":\"hydra:IriTemplate\",\
\"hydra:mapping\":{\
\"@type\":\"hydra:IriTemplateMapping\",\
\"hydra:property\":\"lc:departureTimeQuery\",\
\"hydra:required\":true,\
\"hydra:variable\":\"departureTime\"},\
\"hydra:template\":\"";

/// The text of a valid page: JSON without spaces, its members in the order of their bytes. It says that page. Linear in
/// the connections.
pub fn page_text(alloc: Global, base: &Base, page: &Page) -> Result<Vec<u8>, NoMemory>
    requires { IsValidPage page.now }
    ensures text { IfOk result (λ text. text.items ≡ page_text_of base.now page.now) }
    ensures utf8 { IfOk result (λ text. IsUtf8 text.items) }
    ensures read { IfOk result (λ text. page_of_bytes base.now text.items (Ok page.now)) }
    ensures sound { OnOk result (IsSoundPage page.now) }
{
    page_text_in(alloc, base, page, text_room(base, page))
}

/// The text of the page, for which room for so many bytes is made at once.
pub fn page_text_in(
    alloc: Global,
    base: &Base,
    page: &Page,
    room: usize,
) -> Result<Vec<u8>, NoMemory>
    requires { IsValidPage page.now }
    ensures text { IfOk result (λ text. text.items ≡ page_text_of base.now page.now) }
    ensures utf8 { IfOk result (λ text. IsUtf8 text.items) }
    ensures read { IfOk result (λ text. page_of_bytes base.now text.items (Ok page.now)) }
    ensures sound { OnOk result (IsSoundPage page.now) }
{
    let fronts = fronts_of(alloc, base)?;
    text_under(alloc, base, &fronts, page, room)
}

/// The text of the page by the texts of its base. Those are owned elsewhere, since a dozen texts that end here would make the proof long.
fn text_under(
    alloc: Global,
    base: &Base,
    fronts: &Fronts,
    page: &Page,
    room: usize,
) -> Result<Vec<u8>, NoMemory>
    requires valid { IsValidPage page.now }
    requires fronts { fronts.now ≡ fronts_under (escape base.now.text) }
    ensures text { IfOk result (λ text. text.items ≡ page_text_of base.now page.now) }
    ensures utf8 { IfOk result (λ text. IsUtf8 text.items) }
    ensures read { IfOk result (λ text. page_of_bytes base.now text.items (Ok page.now)) }
    ensures sound { OnOk result (IsSoundPage page.now) }
{
    let text = text_by(alloc, fronts, page, room)?;
    Ok(text)
}

/// The text of the page by the texts that have its base.
fn text_by(alloc: Global, fronts: &Fronts, page: &Page, room: usize) -> Result<Vec<u8>, NoMemory>
    ensures text { IfOk result (λ text. text.items ≡ page_part fronts.now page.now) }
    ensures utf8 { IfOk result (λ text. IsUtf8 text.items) }
    ensures sound { OnOk result (IsSoundPage page.now) }
{
    let mut out = String::with_capacity(alloc, room)?;
    append_page(alloc, &mut out, fronts, page)?;
    Ok(out.into_bytes())
}

/// About the bytes of the page's text: each connection has the base four times.
fn text_room(base: &Base, page: &Page) -> usize {
    let bases = base.text().len().saturating_mul(4);
    let connections = page.list.as_slice().len();
    connections
        .saturating_mul(CONNECTION_BYTES.saturating_add(bases))
        .saturating_add(PAGE_BYTES)
}

fn append_page(
    alloc: Global,
    out: &mut String,
    fronts: &Fronts,
    page: &Page,
) -> Result<(), NoMemory>
    ensures text { OnOk result (string_bytes out.new ≡ string_bytes out.old ++ page_part fronts.now page.now) }
    ensures sound { OnOk result (IsSoundPage page.now) }
{
    sound_name(page.name);
    sound_link(page.next);
    sound_link(page.previous);
    out.push_str(HEAD)?;
    append_connections(alloc, out, fronts, page.list.as_slice())?;
    append_view(out, fronts.base.as_str(), page)?;
    append_search(out, fronts.base.as_str())?;
    Ok(())
}

/// Appends what a page says of itself.
fn append_view(out: &mut String, base: &str, page: &Page) -> Result<(), NoMemory>
    ensures { OnOk result (string_bytes out.new ≡ string_bytes out.old ++ view_part base.now page.now) }
{
    append_page_url(out, ",\"@id\":\"", base, page.name)?;
    out.push_str(",\"@type\":\"hydra:PartialCollectionView\"")?;
    append_link(out, ",\"hydra:next\":\"", base, page.next)?;
    append_link(out, ",\"hydra:previous\":\"", base, page.previous)?;
    Ok(())
}

/// Appends how other pages are asked for, and ends the object of a page.
fn append_search(out: &mut String, base: &str) -> Result<(), NoMemory>
    ensures { OnOk result (string_bytes out.new ≡ string_bytes out.old ++ search_part base.now) }
{
    out.push_str(SEARCH)?;
    out.push_str(base)?;
    out.push_str("connections{?departureTime}\"}}")?;
    Ok(())
}

/// Appends a link to a page, if there is one.
fn append_link(
    out: &mut String,
    front: &str,
    base: &str,
    link: Option<PageName>,
) -> Result<(), NoMemory>
    ensures { OnOk result
        (string_bytes out.new ≡ string_bytes out.old ++ link_part front.now base.now link) }
{
    match link {
        Some(name) => append_page_url(out, front, base, name),
        None => Ok(()),
    }
}

/// Appends the URL of a page, and ends its text.
fn append_page_url(
    out: &mut String,
    front: &str,
    base: &str,
    name: PageName,
) -> Result<(), NoMemory>
    ensures { OnOk result
        (string_bytes out.new ≡ string_bytes out.old ++ (front.now ++ url_part base.now name)) }
{
    out.push_str(front)?;
    out.push_str(base)?;
    out.push_str("memento/connections?version=")?;
    append_moment(out, name.version)?;
    out.push_str("&departureTime=")?;
    append_moment(out, name.departs)?;
    out.push_str("\"")?;
    Ok(())
}
