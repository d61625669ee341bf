ghost use Rattle.std.specs.Prelude.{IsTrue};
ghost use Rattle.fragmenter.specs.Cutting.{chosen_cuts};
ghost use Rattle.publisher.specs.Held.{side_of};
ghost use Rattle.cli_serve.specs.Visit.{Visit};
ghost use Rattle.cli_serve.specs.Visiting.{Answers, Visits};

use crate::serving::Serving;
use fragmenter::Cutting;
use lc_io::{Door, Served, serve_one};
use lc_model::NoMemory;
use publisher::Publisher;
use std::alloc::Global;
use wire_session::Session;

/// Answers what comes on the current connection, and gives the publisher back. Where memory runs out it is the one that the session has left.
fn answer<D: Door>(
    alloc: Global,
    publisher: Publisher<Cutting>,
    door: &mut D,
) -> (Publisher<Cutting>, Result<Served, NoMemory>)
    requires { IsTrue (D.seen door.old).connected }
    ensures { (visit : Visit) × Answers visit result.1 (side_of chosen_cuts publisher) (side_of chosen_cuts result.0) (D.seen door.old) (D.seen door.new) }
{
    let Ok(session) = Session::new(alloc) else {
        return (publisher, Err(NoMemory));
    };
    let mut serving = Serving::new(session, publisher);
    let served = serve_one(alloc, &mut serving, door);
    (serving.into_publisher(), served)
}

/// Serves the current connection and hangs it up.
pub fn visit<D: Door>(
    alloc: Global,
    publisher: Publisher<Cutting>,
    door: &mut D,
) -> (Publisher<Cutting>, Result<Served, NoMemory>)
    requires { IsTrue (D.seen door.old).connected }
    ensures { (visit : Visit) × Visits visit result.1 (side_of chosen_cuts publisher) (side_of chosen_cuts result.0) (D.seen door.old) (D.seen door.new) }
{
    let answered = answer(alloc, publisher, door);
    door.hang_up();
    answered
}
