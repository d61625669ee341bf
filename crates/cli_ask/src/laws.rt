ghost use Rattle.cli_ask.specs.Laws.{AreGivenInOrder, OneOutput, OnePublisher, SomeFront, SomeWants};

use convoy::{one_answer, some_least_arrival};
use lc_world::Link;
use publisher::some_timetable;
use version_store::one_outcome;

/// What is printed of a question is one, but for the way of the journey, where the replies come as the publisher gave them.
pub fn one_output<L: Link, M: Link>()
    ensures { OneOutput L.seen M.seen }
{
    one_answer();
    one_outcome();
}

/// What a publisher has after a message is one, and the line that says what became of the message.
pub fn one_publisher()
    ensures { OnePublisher }
{
    one_outcome();
}

/// A valid side has a list of wants for each question. What is said of all wants of a client that failed is thus said of something.
/// The client received a front of such a list, in the order of the time gate, the stops document and pages.
pub fn some_wants()
    ensures wants { SomeWants }
    ensures front { SomeFront }
    ensures in_order { AreGivenInOrder }
{
    some_timetable();
    some_least_arrival();
}
