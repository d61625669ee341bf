ghost use Rattle.std.specs.Prelude.{◌≤◌, IsErrOf, IsTrue};
ghost use Rattle.fragmenter.specs.Cutting.{chosen_cuts};
ghost use Rattle.lc_io.specs.declared.door.DoorFail.TheVariants.{Failed};
ghost use Rattle.lc_io.specs.Counts.{HasCause};
ghost use Rattle.publisher.specs.Held.{side_of};
ghost use Rattle.cli_serve.specs.Clients.{HasTaken};

use crate::tally::Tally;
use crate::visit::visit;
use fragmenter::Cutting;
use lc_io::{Door, DoorFail, Next};
use publisher::Publisher;
use std::alloc::Global;

/// Serves so many clients, or all that come, one after the other, and counts them. The publisher is handed on from one to the next, and given
/// back at the end.
pub fn take_clients<D: Door>(
    alloc: Global,
    publisher: Publisher<Cutting>,
    connections: u32,
    door: &mut D,
) -> (Publisher<Cutting>, Result<Tally, DoorFail>)
    requires some { 1 ≤ connections }
    requires most { connections ≤ 1_000_000 }
    requires listens { IsTrue (D.seen door.old).listens }
    ensures taken { HasTaken (side_of chosen_cuts publisher) connections result.1 (D.seen door.old) (D.seen door.new) }
    ensures faults { HasCause (D.seen door.old).faults (D.seen door.new).faults (IsErrOf result.1 Failed) }
{
    let mut publisher = publisher;
    let mut tally = Tally::new();
    'clients: while tally.connections < connections {
        match door.next() {
            Ok(Next::Connection) => {}
            Ok(Next::Closed) => return (publisher, Ok(tally)),
            Err(fail) => return (publisher, Err(tally.ended_by(fail))),
        }
        let (left, outcome) = visit(alloc, publisher, door);
        publisher = left;
        tally.count(outcome);
    }
    (publisher, Ok(tally))
}
