ghost use Rattle.std.specs.Prelude.{◌≡◌, IfOk, IfSome, IsTrue, Ok};
ghost use Rattle.lc_model.specs.Connection.{InDepartureOrder, NoneArrivesEarly};
ghost use Rattle.page_json.specs.PageReading.{page_of_bytes};
ghost use Rattle.page_json.specs.Valid.{IsOfVersion, IsValidPage};

use crate::Page;
use crate::guess::guessed_page;
use crate::page_writing::page_text_in;
use connection_uri::Base;
use lc_model::{Moment, NoMemory, PageName, first_disorder};
use std::alloc::Global;

/// The page whose text the bytes are, as `page_text` writes it. None where they are no such text, and perhaps another of a
/// page. Linear in the bytes.
pub fn written_page(alloc: Global, base: &Base, bytes: &[u8]) -> Result<Option<Page>, NoMemory>
    ensures said { IfOk result (λ read. IfSome read (λ page. page_of_bytes base.now bytes.now (Ok page))) }
    ensures valid { IfOk result (λ read. IfSome read IsValidPage) }
{
    let Some(page) = guessed_page(alloc, base, bytes)? else {
        return Ok(None);
    };
    if is_text_of(alloc, base, &page, bytes)? {
        Ok(Some(page))
    } else {
        Ok(None)
    }
}

/// Whether the page is valid and the bytes are its text.
fn is_text_of(alloc: Global, base: &Base, page: &Page, bytes: &[u8]) -> Result<bool, NoMemory>
    ensures said { IfOk result (λ same. IsTrue same → page_of_bytes base.now bytes.now (Ok page.now)) }
    ensures valid { IfOk result (λ same. IsTrue same → IsValidPage page.now) }
{
    if !is_valid(page) {
        return Ok(false);
    }
    let text = page_text_in(alloc, base, page, bytes.len())?;
    Ok(text.as_slice() == bytes)
}

/// Whether the page is one that a publisher may write.
fn is_valid(page: &Page) -> bool
    ensures { IsTrue result → IsValidPage page.now }
{
    let version = page.name.version;
    first_disorder(page.list.as_slice()).is_none()
        && is_of_version(page.next, version)
        && is_of_version(page.previous, version)
}

/// Whether a link, if there is one, leads to a page of this version.
fn is_of_version(link: Option<PageName>, version: Moment) -> bool
    ensures { IsTrue result → IsOfVersion version link }
{
    match link {
        Some(name) => name.version == version,
        None => true,
    }
}
