ghost use Rattle.std.specs.Prelude.{◌≡◌, IfOk};
ghost use Rattle.connection_uri.specs.Page.{gate_target_of, gate_url_of};

use connection_uri::Base;
use lc_model::{Moment, NoMemory, Text};
use lc_time::iso_text;
use percent_encoding::ascii_str;
use std::alloc::Global;

/// The target of a request at the time gate for departures from this moment on: its URL from its path on.
pub fn gate_target(alloc: Global, base: &Base, departs: Moment) -> Result<Text, NoMemory>
    ensures { IfOk result (λ target. target ≡ gate_target_of base.now departs) }
{
    let mut target = String::from_str(alloc, base.path())?;
    target.push_str("connections?departureTime=")?;
    target.push_str(ascii_str(&iso_text(departs)))?;
    Ok(Text::from_string(target))
}

/// The URL of the time gate for departures from this moment on.
pub fn gate_url(alloc: Global, base: &Base, departs: Moment) -> Result<Text, NoMemory>
    ensures { IfOk result (λ url. url ≡ gate_url_of base.now departs) }
{
    let mut url = String::from_str(alloc, base.text())?;
    url.push_str("connections?departureTime=")?;
    url.push_str(ascii_str(&iso_text(departs)))?;
    Ok(Text::from_string(url))
}
