ghost use Rattle.std.specs.Prelude.{◌≡◌, ◌++◌, ◌<◌, ℕ, List, length, codes, Some, IfOk, IfSome, IsSomeAnd, OnOk};
ghost use Rattle.std.specs.String.{string_bytes};
ghost use Rattle.lc_model.specs.declared.page.PageName.{PageName as Named};
ghost use Rattle.lc_time.specs.Iso.{iso_text_of};
ghost use Rattle.connection_uri.specs.Join.{PageUrlsJoin, PageTargetsJoin, PageTargetsJoinNowhere};
ghost use Rattle.connection_uri.specs.Page.{page_url_of, page_parts_of, PageUrlsDiffer};

use crate::Base;
use crate::parts::{behind_base, split_at_mark};
use lc_model::{Moment, NoMemory, PageName, Text};
use lc_time::{iso_text, read_iso};
use percent_encoding::ascii_str;
use std::alloc::Global;

/// The URL of the page: {base}memento/connections?version=V&departureTime=T, with both moments in ISO 8601.
pub fn page_url(alloc: Global, base: &Base, name: PageName) -> Result<Text, NoMemory>
    ensures { IfOk result (λ text. text ≡ page_url_of base.now name) }
{
    let mut text = String::new(alloc);
    fill_page_url(&mut text, base, name)?;
    Ok(Text::from_string(text))
}

/// Writes the URL of a page in place of what the text has.
pub fn fill_page_url(text: &mut String, base: &Base, name: PageName) -> Result<(), NoMemory>
    ensures { OnOk result (string_bytes text.new ≡ page_url_of base.now name) }
{
    text.clear();
    text.push_str(base.text())?;
    text.push_str("memento/connections?version=")?;
    append_moment(text, name.version)?;
    text.push_str("&departureTime=")?;
    append_moment(text, name.departs)?;
    Ok(())
}

/// Appends the text of the moment.
pub fn append_moment(text: &mut String, moment: Moment) -> Result<(), NoMemory>
    ensures { OnOk result (string_bytes text.new ≡ string_bytes text.old ++ iso_text_of moment) }
{
    text.push_str(ascii_str(&iso_text(moment)))?;
    Ok(())
}

/// The page whose URL the text is. None exactly where the text is no URL of a page under this base, written so.
pub fn read_page_url(base: &Base, text: &[u8]) -> Option<PageName>
    ensures said { IfSome result (λ name. text.now ≡ page_url_of base.now name) }
    ensures exact { (name : Named) → name.version < 253_402_128_000 → name.departs < 253_402_128_000
        → text.now ≡ page_url_of base.now name → result ≡ Some name }
{
    match split_page(base, text) {
        Some((version, departs)) => page_of(version, departs),
        None => None,
    }
}

/// The page of these two moments.
fn page_of(version: &[u8], departs: &[u8]) -> Option<PageName>
    ensures said { IfSome result
        (λ name. (version.now ≡ iso_text_of name.version) × (departs.now ≡ iso_text_of name.departs)) }
    ensures exact { (name : Named) → name.version < 253_402_128_000 → name.departs < 253_402_128_000
        → version.now ≡ iso_text_of name.version → departs.now ≡ iso_text_of name.departs → result ≡ Some name }
{
    let version = read_iso_text(version)?;
    let departs = read_iso_text(departs)?;
    Some(PageName { version, departs })
}

/// The texts of the two moments, if the text is made as the URLs of pages under this base are.
fn split_page<'a>(base: &Base, text: &'a [u8]) -> Option<(&'a [u8], &'a [u8])>
    ensures said { IfSome result (λ p. text.now ≡ page_parts_of base.now p.0.now p.1.now) }
    ensures exact { (version departs : List ℕ) → length version ≡ 24 → text.now ≡ page_parts_of base.now version departs
        → IsSomeAnd result (λ p. (p.0.now ≡ version) × (p.1.now ≡ departs)) }
{
    let rest = behind_base(text, base, b"memento/connections?version=")?;
    split_at_mark(rest, b"&departureTime=")
}

/// The moment that is written so, with no digit of a fraction but 0.
fn read_iso_text(text: &[u8]) -> Option<Moment>
    ensures said { IfSome result (λ moment. text.now ≡ iso_text_of moment) }
    ensures exact { (moment : ℕ) → moment < 253_402_128_000 → text.now ≡ iso_text_of moment → result ≡ Some moment }
{
    let moment = read_iso(text)?;
    if iso_text(moment).as_slice() == text {
        Some(moment)
    } else {
        None
    }
}

/// Different pages have different URLs under a base.
pub fn page_urls_differ()
    ensures { PageUrlsDiffer }
{}

/// The URL of a page, joined to the time gate's, is that URL.
pub fn page_urls_join()
    ensures { PageUrlsJoin }
{}

/// The URL from its path on is, too, exactly where the base's path does not begin with two slashes. After two an
/// authority is read, thus no base is left out which could be in.
pub fn page_targets_join()
    ensures once { PageTargetsJoin }
    ensures twice { PageTargetsJoinNowhere }
{}
