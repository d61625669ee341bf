ghost use Rattle.std.specs.Prelude.{◌≡◌, ◌≢◌, ◌≤◌, ℕ, List, codes, Some, Err, IfOk, IfSome};
ghost use Rattle.lc_model.specs.Connection.{NoneArrivesEarly};
ghost use Rattle.lc_model.specs.declared.connection.Connection.{Connection as Stated};
ghost use Rattle.lc_model.specs.declared.key.RunKey.{RunKey as Key};
ghost use Rattle.page_json.specs.ObjectMembers.Members.{said_at};
ghost use Rattle.page_json.specs.PageReading.{allows, connection_in, end_at, joined, unless_early};
ghost use Rattle.page_json.specs.ObjectMembers.Reading.{Meets, each_in, exactly};
ghost use Rattle.page_json.specs.ObjectMembers.View.{items_view, view};
ghost use Rattle.page_json.specs.Says.{SaysName, SaysStop};

use crate::object_members::{
    PageFault, bad_member, delay_at, member_at, moment_at, needed_text, object_under, or_bad,
    text_in,
};
use crate::urls::read_stop_url;
use connection_uri::{Base, read_name};
use json::Value;
use lc_model::{Connection, Connections, Id, Moment, NoMemory, RunKey};
use std::alloc::Global;

/// An arrival or a departure.
#[derive(Drop)]
pub struct End {
    pub delay: i64,
    pub stop: Id,
    pub moment: Moment,
}

/// The run and the sequence that a connection's name says.
fn name_at(alloc: Global, base: &Base, value: &Value<'_>) -> Result<(RunKey, u32), PageFault>
    ensures { Meets (said_at (SaysName base.now) (codes "@id") (view value.now)) result }
{
    let text = needed_text(alloc, value, "@id")?;
    let read = said_name(alloc, base, text.as_bytes())?;
    or_bad(alloc, read, "@id")
}

/// The run and the sequence whose name the text is.
fn said_name(alloc: Global, base: &Base, text: &[u8]) -> Result<Option<(RunKey, u32)>, NoMemory>
    ensures said { IfOk result (λ read. IfSome read (SaysName base.now text.now)) }
    ensures exact { IfOk result (λ read. (name : Key × ℕ) → SaysName base.now text.now name → read ≡ Some name) }
{
    let read = read_name(alloc, base, text)?;
    if let Some((key, _)) = &read {
        let _trip = key.trip.bytes();
    }
    Ok(read)
}

/// The stop that a member's URL says.
fn stop_at(alloc: Global, base: &Base, value: &Value<'_>, key: &str) -> Result<Id, PageFault>
    ensures { Meets (said_at (SaysStop base.now) key.now (view value.now)) result }
{
    let text = needed_text(alloc, value, key)?;
    let read = read_stop_url(alloc, base, text.as_bytes())?;
    or_bad(alloc, read, key)
}

/// An arrival or a departure, by the names of its members.
fn end_at(
    alloc: Global,
    base: &Base,
    value: &Value<'_>,
    delay_key: &str,
    stop_key: &str,
    moment_key: &str,
) -> Result<End, PageFault>
    ensures { Meets (end_at base.now delay_key.now stop_key.now moment_key.now (view value.now)) result }
{
    let delay = delay_at(alloc, value, delay_key)?;
    let stop = stop_at(alloc, base, value, stop_key)?;
    let moment = moment_at(alloc, value, moment_key)?;
    Ok(End {
        delay,
        stop,
        moment,
    })
}

/// A connection.
fn connection_in(alloc: Global, base: &Base, value: &Value<'_>) -> Result<Connection, PageFault>
    ensures said { Meets (connection_in base.now (view value.now)) result }
    ensures forward { IfOk result (λ c. c.dep ≤ c.arr) }
{
    object_under(alloc, value, "@graph")?;
    let name = name_at(alloc, base, value)?;
    let arrival = end_at(
        alloc,
        base,
        value,
        "arrivalDelay",
        "arrivalStop",
        "arrivalTime",
    )?;
    let departure = end_at(
        alloc,
        base,
        value,
        "departureDelay",
        "departureStop",
        "departureTime",
    )?;
    joined(alloc, value, name, arrival, departure)
}

/// The connection of a name, an arrival and a departure.
fn joined(
    alloc: Global,
    value: &Value<'_>,
    name: (RunKey, u32),
    arrival: End,
    departure: End,
) -> Result<Connection, PageFault>
    ensures said { Meets (exactly (unless_early (joined (view value.now) name arrival departure))) result }
    ensures forward { IfOk result (λ c. c.dep ≤ c.arr) }
{
    if arrival.moment < departure.moment {
        return Err(bad_member(alloc, "arrivalTime"));
    }
    let (key, seq) = name;
    Ok(Connection {
        key,
        seq,
        dep_stop: departure.stop,
        dep: departure.moment,
        arr_stop: arrival.stop,
        arr: arrival.moment,
        board: allows(value, "gtfs:pickupType"),
        alight: allows(value, "gtfs:dropOffType"),
        dep_delay: departure.delay,
        arr_delay: arrival.delay,
    })
}

/// Whether the member allows to board or to alight.
fn allows(value: &Value<'_>, key: &str) -> bool
    ensures { result ≡ allows key.now (view value.now) }
{
    let Some(member) = member_at(value, key) else {
        return true;
    };
    match text_in(member) {
        Some(text) => text != "gtfs:NotAvailable",
        None => true,
    }
}

/// The connections of a list, none of which arrives before it departs. Linear in the list.
pub fn connections_in(
    alloc: Global,
    base: &Base,
    values: &[Value<'_>],
) -> Result<Connections, PageFault>
    ensures { Meets (each_in (connection_in base.now) (items_view values.now)) result }
{
    let mut connections = Vec::with_capacity(alloc, values.len())?;
    for value in values {
        connections.push(connection_in(alloc, base, value)?)?;
    }
    Ok(Connections::from_list(connections))
}
