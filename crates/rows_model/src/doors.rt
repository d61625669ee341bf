//! A door to a client whose bytes come in pieces, and how connections are served in the file beside it.
mod pieces;
mod serving;

ghost use Rattle.std.specs.Prelude.{◌≡◌, IsTrue};
ghost use Rattle.lc_io.specs.Door.{DoorSeen};

use lc_io::{Door, DoorFail, Next, SureDoor};
use pieces::connections;
use rows_common::{Draft, Unmade, put_bytes, put_count, put_flag, put_line, put_number};
use std::alloc::Global;

/// A line for each value.
pub(crate) fn put_doors(alloc: Global, draft: &mut Draft) {
    let mut text = String::new(alloc);
    let made = put_all(alloc, &mut text);
    draft.put_part(text.as_str(), made);
}

fn put_all(alloc: Global, text: &mut String) -> Result<(), Unmade> {
    put_sure_door(alloc, text)?;
    serving::put_servings(alloc, text)
}

/// A client whose bytes come in two pieces, read four bytes at a time, and then no further client.
fn put_sure_door(alloc: Global, text: &mut String) -> Result<(), Unmade> {
    let mut door = SureDoor::new(alloc, connections(alloc)?)?;
    put_door(text, &mut door)
}

fn put_door(text: &mut String, door: &mut SureDoor) -> Result<(), Unmade> {
    put_flag(text, "door is opened", door.listen(8080).is_ok())?;
    put_first(text, door)
}

fn put_first<D: Door>(text: &mut String, door: &mut D) -> Result<(), Unmade>
    requires { IsTrue (D.seen door.old).listens }
{
    put_read(text, door)?;
    match door.next() {
        Ok(Next::Connection) => put_client(text, door),
        _ => Err(Unmade),
    }
}

/// More reads than the client has bytes for, and a write.
fn put_client<D: Door>(text: &mut String, door: &mut D) -> Result<(), Unmade>
    requires listens { IsTrue (D.seen door.old).listens }
    requires connected { IsTrue (D.seen door.old).connected }
{
    put_line(text, "next", "a connection")?;
    put_read(text, door)?;
    put_read(text, door)?;
    put_read(text, door)?;
    put_read(text, door)?;
    put_read(text, door)?;
    put_written(text, door.write(b"HTTP/1.1 404 Not Found\r\n"))?;
    put_end(text, door)
}

fn put_end<D: Door>(text: &mut String, door: &mut D) -> Result<(), Unmade>
    requires { IsTrue (D.seen door.old).listens }
{
    door.hang_up();
    put_read(text, door)?;
    put_next(text, door.next())?;
    put_number(text, "broken", door.broken())?;
    put_number(text, "faults of the door", door.faults())
}

/// How many bytes a read of four at most gives, and these.
fn put_read<D: Door>(text: &mut String, door: &mut D) -> Result<(), Unmade>
    ensures listens { (D.seen door.new).listens ≡ (D.seen door.old).listens }
    ensures connected { (D.seen door.new).connected ≡ (D.seen door.old).connected }
{
    let mut piece = [0; 4];
    match door.read(&mut piece) {
        Ok(count) => put_piece(text, &piece[..count]),
        Err(_) => Err(Unmade),
    }
}

fn put_piece(text: &mut String, piece: &[u8]) -> Result<(), Unmade> {
    put_count(text, "bytes read", piece.len())?;
    put_bytes(text, "read", piece)
}

fn put_written(text: &mut String, written: Result<usize, DoorFail>) -> Result<(), Unmade> {
    match written {
        Ok(count) => put_count(text, "bytes written", count),
        Err(_) => Err(Unmade),
    }
}

fn put_next(text: &mut String, next: Result<Next, DoorFail>) -> Result<(), Unmade> {
    match next {
        Ok(Next::Connection) => put_line(text, "next", "a connection"),
        Ok(Next::Closed) => put_line(text, "next", "none"),
        Err(_) => Err(Unmade),
    }
}
