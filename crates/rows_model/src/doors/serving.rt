//! Connections that are served by a talk which gives back what it is fed, over a door of which some calls fail or none.
ghost use Rattle.std.specs.Prelude.{◌≤◌, IsTrue};
ghost use Rattle.std.specs.Option.{is_some};

use super::pieces::connections;
use lc_io::{Door, EchoTalk, MemDoor, Next, Served, serve_one};
use rows_common::{Unmade, put_bytes, put_flag, put_line, put_number};
use std::alloc::Global;

/// Of the calls of a door the first is `listen`, the second `next`, the third reads a piece of six bytes, and the fourth writes.
pub(super) fn put_servings(alloc: Global, text: &mut String) -> Result<(), Unmade> {
    put_serving(alloc, text, "all is served", 100, &[])?;
    put_serving(alloc, text, "the talk ends after three bytes", 3, &[])?;
    put_serving(alloc, text, "the first write fails", 100, &[4])?;
    put_serving(alloc, text, "the second read fails", 100, &[5])?;
    put_serving(
        alloc,
        text,
        "each call from the second read on fails",
        100,
        &[5, 6, 7, 8],
    )?;
    put_serving(alloc, text, "the door does not open", 100, &[1])?;
    put_serving(alloc, text, "no client can be taken", 100, &[2])
}

fn put_serving(
    alloc: Global,
    text: &mut String,
    case: &str,
    limit: u32,
    fails: &[u64],
) -> Result<(), Unmade>
    requires { limit ≤ 1679360000 }
{
    put_line(text, "case", case)?;
    let mut door = door(alloc, fails)?;
    put_door(alloc, text, limit, &mut door)
}

/// A door to one client, of which the calls of these numbers fail.
fn door(alloc: Global, fails: &[u64]) -> Result<MemDoor, Unmade> {
    let connections = connections(alloc)?;
    Ok(MemDoor::new(alloc, connections, fails.to_vec(alloc)?)?)
}

fn put_door(alloc: Global, text: &mut String, limit: u32, door: &mut MemDoor) -> Result<(), Unmade>
    requires { limit ≤ 1679360000 }
{
    if door.listen(8080).is_ok() {
        put_client(alloc, text, limit, door)?;
    }
    put_state(text, door)
}

fn put_client(
    alloc: Global,
    text: &mut String,
    limit: u32,
    door: &mut MemDoor,
) -> Result<(), Unmade>
    requires limit { limit ≤ 1679360000 }
    requires listens { IsTrue (is_some door.old.wires.port) }
{
    match door.next() {
        Ok(Next::Connection) => put_served(alloc, text, &mut EchoTalk::new(alloc, limit), door),
        Ok(Next::Closed) => Err(Unmade),
        Err(_) => put_line(text, "next", "failed"),
    }
}

fn put_served(
    alloc: Global,
    text: &mut String,
    talk: &mut EchoTalk,
    door: &mut MemDoor,
) -> Result<(), Unmade>
    requires { IsTrue (is_some door.old.wires.current) }
{
    match serve_one(alloc, talk, door) {
        Ok(served) => put_outcome(text, served),
        Err(_) => Err(Unmade),
    }
}

fn put_outcome(text: &mut String, served: Served) -> Result<(), Unmade> {
    put_number(text, "requests", served.requests as u64)?;
    put_flag(text, "fault", served.fault)
}

/// The port, what was sent, and the counts.
fn put_state(text: &mut String, door: &MemDoor) -> Result<(), Unmade> {
    match door.port() {
        Some(port) => put_number(text, "port", port as u64)?,
        None => put_line(text, "port", "none")?,
    }
    if door.taken() > 0 {
        put_bytes(text, "sent", door.sent(1))?;
    }
    put_number(text, "broken", door.broken())?;
    put_number(text, "faults of the door", door.faults())
}
