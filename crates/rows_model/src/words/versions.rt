//! Which version a request means, and the URLs that name versions.
use super::lines::{moment, put_read, seconds_of};
use connection_uri::{Base, page_url, read_page_url};
use lc_model::{Moment, PageName};
use memento::{gate_target, negotiate};
use rows_common::{Unmade, put_line};
use std::alloc::Global;

/// Values of the field `Accept-Datetime`.
const KNOWN: [&str; 5] = [
    "Wed, 01 May 2024 07:00:00 GMT",
    "Wed, 01 May 2024 06:59:59 GMT",
    "Wed, 01 May 2024 05:00:00 GMT",
    "Wednesday, 01-May-24 09:00:00 GMT",
    "yesterday",
];

/// Which version is meant of the base of 06:00:00 and the version of 07:00:00 of 2024-05-01.
pub(super) fn put_versions(text: &mut String) -> Result<(), Unmade> {
    let versions = [moment(1_714_543_200)?, moment(1_714_546_800)?];
    put_known(text, &versions)
}

/// A line for each of `KNOWN`, and one for no value.
fn put_known(text: &mut String, versions: &[Moment; 2]) -> Result<(), Unmade> {
    for known in &KNOWN {
        let version = negotiate(versions, Some(known.as_bytes()));
        put_read(text, "version by", *known, seconds_of(version))?;
    }
    let newest = negotiate(versions, None);
    put_read(text, "version by no value", "", seconds_of(newest))
}

/// The target of the time gate, and the moments of the page that is read of the URL that it sends to.
pub(super) fn put_urls(alloc: Global, text: &mut String, base: &Base) -> Result<(), Unmade> {
    let departs = moment(1_714_550_400)?;
    put_target(alloc, text, base, departs)?;
    let version = moment(1_714_546_800)?;
    put_url(alloc, text, base, PageName { version, departs })
}

fn put_target(
    alloc: Global,
    text: &mut String,
    base: &Base,
    departs: Moment,
) -> Result<(), Unmade> {
    match gate_target(alloc, base, departs) {
        Ok(target) => put_line(text, "target of the gate", target.as_str()),
        Err(_) => Err(Unmade),
    }
}

fn put_url(alloc: Global, text: &mut String, base: &Base, page: PageName) -> Result<(), Unmade> {
    match page_url(alloc, base, page) {
        Ok(url) => put_page(text, read_page_url(base, url.as_str().as_bytes())),
        Err(_) => Err(Unmade),
    }
}

fn put_page(text: &mut String, page: Option<PageName>) -> Result<(), Unmade> {
    let Some(PageName { version, departs }) = page else {
        return Err(Unmade);
    };
    put_read(text, "page of the gate", "version", Some(version.seconds()))?;
    put_read(text, "page of the gate", "departs", Some(departs.seconds()))
}
