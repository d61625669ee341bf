//! A page by a guess: what a text says if `page_text` wrote it. Nothing is promised of a guess. Who takes one writes it again and
//! compares.
use crate::Page;
use crate::cursor::Cursor;
use crate::named::Named;
use connection_uri::{Base, read_page_url};
use lc_model::{Connection, Connections, Id, NoMemory, PageName};
use lc_time::read_iso;
use std::alloc::Global;

/// About the least bytes of a connection's text beside the four bases in it.
const LEAST_BYTES: usize = 330;

/// How a text says that one may board or alight.
const ALLOWED: &[u8] = b"gtfs:Regular";

/// A guess of the page that the text says, or none. Linear in the text, and it takes the logarithm of the runs and stops that the page names
/// for each connection.
pub(crate) fn guessed_page(
    alloc: Global,
    base: &Base,
    text: &[u8],
) -> Result<Option<Page>, NoMemory> {
    let mut cursor = Cursor::new(text);
    if cursor.find(b"\"@graph\":[").is_none() {
        return Ok(None);
    }
    let Some(list) = guessed_list(alloc, base, &mut cursor)? else {
        return Ok(None);
    };
    Ok(with_view(base, &mut cursor, list))
}

/// The connections up to the end of their list.
fn guessed_list(
    alloc: Global,
    base: &Base,
    cursor: &mut Cursor<'_>,
) -> Result<Option<Connections>, NoMemory> {
    let bases = base.text().len().saturating_mul(4);
    let most = cursor.left() / LEAST_BYTES.saturating_add(bases);
    let mut list = Vec::with_capacity(alloc, most)?;
    let mut named = Named::new(alloc);
    if push_all(alloc, base, cursor, &mut named, &mut list)? {
        Ok(forward_list(list))
    } else {
        Ok(None)
    }
}

/// Pushes the connections up to the end of their list. Whether there is a guess of each.
fn push_all<'a>(
    alloc: Global,
    base: &Base,
    cursor: &mut Cursor<'a>,
    named: &mut Named<'a>,
    list: &mut Vec<Connection>,
) -> Result<bool, NoMemory> {
    // Each takes a byte at least.
    for _ in 0..cursor.left() {
        if cursor.skip(b"{\"@id\":\"").is_none() {
            break;
        }
        match guessed_connection(alloc, base, cursor, named)? {
            Some(connection) => list.push(connection)?,
            None => return Ok(false),
        }
    }
    Ok(true)
}

/// The list, if no connection arrives before it departs.
fn forward_list(list: Vec<Connection>) -> Option<Connections> {
    if list
        .as_slice()
        .iter()
        .all(|connection| connection.dep <= connection.arr)
    {
        Some(Connections::from_list(list))
    } else {
        None
    }
}

/// The connection whose name comes next.
fn guessed_connection<'a>(
    alloc: Global,
    base: &Base,
    cursor: &mut Cursor<'a>,
    named: &mut Named<'a>,
) -> Result<Option<Connection>, NoMemory> {
    match connection_parts(cursor) {
        Some(parts) => made_connection(alloc, base, named, &parts),
        None => Ok(None),
    }
}

/// The connection of these parts.
fn made_connection<'a>(
    alloc: Global,
    base: &Base,
    named: &mut Named<'a>,
    parts: &ConnectionParts<'a>,
) -> Result<Option<Connection>, NoMemory> {
    let (Some(dep), Some(arr)) = (
        read_iso(parts.departure.moment),
        read_iso(parts.arrival.moment),
    ) else {
        return Ok(None);
    };
    let Some((key, seq)) = named.connection(alloc, base, parts.name)? else {
        return Ok(None);
    };
    let Some((dep_stop, arr_stop)) = made_stops(alloc, base, named, parts)? else {
        return Ok(None);
    };
    Ok(Some(Connection {
        key,
        seq,
        dep_stop,
        dep,
        arr_stop,
        arr,
        board: parts.usage.board,
        alight: parts.usage.alight,
        dep_delay: parts.departure.delay,
        arr_delay: parts.arrival.delay,
    }))
}

/// The stops of departure and of arrival.
fn made_stops<'a>(
    alloc: Global,
    base: &Base,
    named: &mut Named<'a>,
    parts: &ConnectionParts<'a>,
) -> Result<Option<(Id, Id)>, NoMemory> {
    let Some(departure) = named.stop(alloc, base, parts.departure.stop)? else {
        return Ok(None);
    };
    let Some(arrival) = named.stop(alloc, base, parts.arrival.stop)? else {
        return Ok(None);
    };
    Ok(Some((departure, arrival)))
}

/// The parts of a connection's text, the texts in it as they are written.
#[derive(Clone, Copy)]
struct ConnectionParts<'a> {
    name: &'a [u8],
    arrival: EndParts<'a>,
    departure: EndParts<'a>,
    usage: Usage,
}

/// The parts of an arrival or a departure.
#[derive(Clone, Copy)]
struct EndParts<'a> {
    delay: i64,
    stop: &'a [u8],
    moment: &'a [u8],
}

/// Whether one may alight and board.
#[derive(Clone, Copy)]
struct Usage {
    alight: bool,
    board: bool,
}

/// The parts of the connection whose name comes next. Moves past its comma, or past its end where it is the last.
fn connection_parts<'a>(cursor: &mut Cursor<'a>) -> Option<ConnectionParts<'a>> {
    let name = cursor.before(b'"')?;
    cursor.skip(b",\"@type\":\"Connection\"")?;
    let arrival = arrival_parts(cursor)?;
    let departure = departure_parts(cursor)?;
    let usage = usage_part(cursor)?;
    Some(ConnectionParts {
        name,
        arrival,
        departure,
        usage,
    })
}

fn arrival_parts<'a>(cursor: &mut Cursor<'a>) -> Option<EndParts<'a>> {
    let delay = cursor.number_after(b",\"arrivalDelay\":")?;
    let stop = cursor.text_after(b"\"arrivalStop\":\"")?;
    let moment = cursor.text_after(b",\"arrivalTime\":\"")?;
    Some(EndParts {
        delay,
        stop,
        moment,
    })
}

fn departure_parts<'a>(cursor: &mut Cursor<'a>) -> Option<EndParts<'a>> {
    let delay = cursor.number_after(b",\"departureDelay\":")?;
    let stop = cursor.text_after(b"\"departureStop\":\"")?;
    let moment = cursor.text_after(b",\"departureTime\":\"")?;
    Some(EndParts {
        delay,
        stop,
        moment,
    })
}

/// Whether one may alight and board, by the last members of a connection. The URL of its trip says no more than its name.
fn usage_part(cursor: &mut Cursor<'_>) -> Option<Usage> {
    let alight = cursor.text_after(b",\"gtfs:dropOffType\":\"")?;
    let board = cursor.text_after(b",\"gtfs:pickupType\":\"")?;
    cursor.before(b'}')?;
    let _comma = cursor.skip(b",");
    Some(Usage {
        alight: alight == ALLOWED,
        board: board == ALLOWED,
    })
}

/// The page of these connections, with what it says of itself after them.
fn with_view(base: &Base, cursor: &mut Cursor<'_>, list: Connections) -> Option<Page> {
    let name = page_after(base, cursor, b"],\"@id\":\"")?;
    cursor.skip(b",\"@type\":\"hydra:PartialCollectionView\"")?;
    let next = page_after(base, cursor, b",\"hydra:next\":\"");
    let previous = page_after(base, cursor, b",\"hydra:previous\":\"");
    Some(Page {
        name,
        next,
        previous,
        list,
    })
}

/// The page whose URL comes after this key, if that comes next.
fn page_after(base: &Base, cursor: &mut Cursor<'_>, key: &[u8]) -> Option<PageName> {
    read_page_url(base, cursor.text_after(key)?)
}
