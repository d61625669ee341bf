ghost use Rattle.std.specs.Prelude.{◌≡◌, ◌≤◌, ℕ, OnOk, true};
ghost use Rattle.fragmenter.specs.Cutting.{chosen_cuts};
ghost use Rattle.publisher.specs.Held.{side_of};
ghost use Rattle.lc_world.specs.Sides.Side.{Side};
ghost use Rattle.cli_serve.specs.Serve.{DoorNeverFell, ServesTo};
ghost use Rattle.cli_serve.specs.Steps.{Announces, Closes, StopsTo};
ghost use Rattle.cli_serve.specs.Written.{SinkNeverFell};

use crate::ServeFault;
use crate::clients::take_clients;
use crate::lines::{put_opening, put_served};
use crate::stop::Stop;
use crate::tally::Tally;
use fragmenter::Cutting;
use lc_io::{Door, DoorFail, Sink};
use publisher::Publisher;
use std::alloc::Global;

/// Listens, and then says so after the opening.
fn announce<D: Door, S: Sink>(
    alloc: Global,
    opening: Vec<u8>,
    port: u16,
    door: &mut D,
    out: &mut S,
) -> Result<(), Stop>
    ensures announces { (first : Side) (connections : ℕ) → Announces
        (record { first = first; opening = opening.items; port = port; connections = connections })
        (record { door = D.seen door.old; sink = S.seen out.old })
        (record { door = D.seen door.new; sink = S.seen out.new })
        result }
    ensures broken { (D.seen door.new).broken ≡ (D.seen door.old).broken }
    ensures door_counts { DoorNeverFell (D.seen door.old) (D.seen door.new) }
    ensures sink_counts { SinkNeverFell (S.seen out.old) (S.seen out.new) }
{
    door.listen(port)?;
    put_opening(alloc, opening, port, out)?;
    Ok(())
}

/// Writes the line at the end, unless serving stopped before.
fn close<S: Sink>(alloc: Global, taken: Result<Tally, DoorFail>, out: &mut S) -> Result<(), Stop>
    ensures closes { Closes taken (S.seen out.old) (S.seen out.new) result }
    ensures sink_counts { SinkNeverFell (S.seen out.old) (S.seen out.new) }
{
    let tally = taken?;
    if tally.lost {
        return Err(Stop::NoMemory);
    }
    put_served(alloc, tally, out)?;
    Ok(())
}

/// Listens, serves the clients, and writes both lines. The publisher is given back, since its drop at each end would make the proof dear.
fn serve_all<D: Door, S: Sink>(
    alloc: Global,
    publisher: Publisher<Cutting>,
    opening: Vec<u8>,
    port: u16,
    connections: u32,
    door: &mut D,
    out: &mut S,
) -> (Publisher<Cutting>, Result<(), Stop>)
    requires some { 1 ≤ connections }
    requires most { connections ≤ 1_000_000 }
    ensures stops { StopsTo
        (record { first = side_of chosen_cuts publisher; opening = opening.items; port = port; connections = connections })
        (record { door = D.seen door.old; sink = S.seen out.old })
        (record { door = D.seen door.new; sink = S.seen out.new })
        result.1 }
    ensures door_counts { DoorNeverFell (D.seen door.old) (D.seen door.new) }
    ensures sink_counts { SinkNeverFell (S.seen out.old) (S.seen out.new) }
{
    if let Err(stop) = announce(alloc, opening, port, door, out) {
        return (publisher, Err(stop));
    }
    let (left, taken) = take_clients(alloc, publisher, connections, door);
    (left, close(alloc, taken, out))
}

/// Listens at the port, says so after the opening, and serves this many connections one after the other, or all that come. Then it says how many
/// there were, how many requests it answered, and on how many a read or a write failed. The publisher is handed on from one to the next.
///
/// A connection has at most 100 requests. One on which memory runs out is hung up and the next one is served. But then the end is `NoMemory`, and
/// no line at the end is written.
pub fn serve<D: Door, S: Sink>(
    alloc: Global,
    publisher: Publisher<Cutting>,
    opening: Vec<u8>,
    port: u16,
    connections: u32,
    door: &mut D,
    out: &mut S,
) -> Result<(), ServeFault>
    requires some { 1 ≤ connections }
    requires most { connections ≤ 1_000_000 }
    ensures serves { ServesTo
        (record { first = side_of chosen_cuts publisher; opening = opening.items; port = port; connections = connections })
        (record { door = D.seen door.old; sink = S.seen out.old })
        (record { door = D.seen door.new; sink = S.seen out.new })
        result }
    ensures listens { OnOk result ((D.seen door.new).listens ≡ true) }
    ensures door_counts { DoorNeverFell (D.seen door.old) (D.seen door.new) }
    ensures sink_counts { SinkNeverFell (S.seen out.old) (S.seen out.new) }
{
    let door_before = door.faults();
    let sink_before = out.faults();
    let (left, ended) = serve_all(alloc, publisher, opening, port, connections, door, out);
    // Here once, since its drop at each end of what follows makes the proof dear.
    drop(left);
    match ended {
        Ok(()) => Ok(()),
        Err(Stop::Door) => Err(ServeFault::Door {
            before: door_before,
            after: door.faults(),
        }),
        Err(Stop::Sink) => Err(ServeFault::Sink {
            before: sink_before,
            after: out.faults(),
        }),
        Err(Stop::NoMemory) => Err(ServeFault::NoMemory),
    }
}
