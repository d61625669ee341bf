ghost use Rattle.std.specs.Prelude.{◌≡◌, None, IfOk};
ghost use Rattle.connection_uri.specs.Page.{gate_target_of, page_target_of, stops_target_of};
ghost use Rattle.connection_uri.specs.Base.{IsBase};
ghost use Rattle.http_text.specs.Targets.{CanAskFor};
ghost use Rattle.page_client.specs.Request.{Asks};

use connection_uri::{Base, append_moment};
use http_text::{request_text, targets_are_good};
use lc_model::{Moment, NoMemory, PageName, Text};
use memento::gate_target;
use std::alloc::Global;

/// A request to the time gate, with the moment up to which the asker knows.
pub fn ask_gate(
    alloc: Global,
    base: &Base,
    leave: Moment,
    known: Option<Moment>,
) -> Result<Vec<u8>, NoMemory>
    ensures { IfOk result (λ text. Asks base.now (gate_target_of base.now leave) known text.items) }
{
    targets_are_good();
    // The calls of values say what is known of them: that the base is one, and the ranges of moments.
    let _path = base.path();
    let _leave = leave.seconds();
    let target = gate_target(alloc, base, leave)?;
    ask(alloc, base, &target, known)
}

/// A request for the stops document.
pub fn ask_stops(alloc: Global, base: &Base) -> Result<Vec<u8>, NoMemory>
    ensures { IfOk result (λ text. Asks base.now (stops_target_of base.now) None text.items) }
{
    targets_are_good();
    let target = stops_target(alloc, base)?;
    ask(alloc, base, &target, None)
}

/// A request for a page.
pub fn ask_page(alloc: Global, base: &Base, name: PageName) -> Result<Vec<u8>, NoMemory>
    ensures { IfOk result (λ text. Asks base.now (page_target_of base.now name) None text.items) }
{
    targets_are_good();
    let _version = name.version.seconds();
    let _departs = name.departs.seconds();
    let target = page_target(alloc, base, name)?;
    ask(alloc, base, &target, None)
}

/// A GET of a target that can be asked for.
fn ask(
    alloc: Global,
    base: &Base,
    target: &Text,
    known: Option<Moment>,
) -> Result<Vec<u8>, NoMemory>
    requires { CanAskFor base.now target.now }
    ensures { IfOk result (λ text. Asks base.now target.now known text.items) }
{
    let text = request_text(alloc, base, target.as_str(), known)?;
    Ok(text)
}

/// The target of the stops document.
fn stops_target(alloc: Global, base: &Base) -> Result<Text, NoMemory>
    ensures target { IfOk result (λ target. target ≡ stops_target_of base.now) }
    ensures plain { IsBase base.now }
{
    let mut target = String::from_str(alloc, base.path())?;
    target.push_str("stops")?;
    Ok(Text::from_string(target))
}

/// The target of a page, its URL from the path on.
fn page_target(alloc: Global, base: &Base, name: PageName) -> Result<Text, NoMemory>
    ensures target { IfOk result (λ target. target ≡ page_target_of base.now name) }
    ensures plain { IsBase base.now }
{
    let mut target = String::from_str(alloc, base.path())?;
    target.push_str("memento/connections?version=")?;
    append_moment(&mut target, name.version)?;
    target.push_str("&departureTime=")?;
    append_moment(&mut target, name.departs)?;
    Ok(Text::from_string(target))
}
