ghost use Rattle.std.specs.Prelude.{◌≡◌, ◌≢◌, IfErr, IfOk};
ghost use Rattle.cli_ask.specs.LatestDeparture.Asked.{AsksPublisher, IsAskedLatest};
ghost use Rattle.cli_ask.specs.Admission.{IsFaulty};
ghost use Rattle.lc_world.specs.GoneOn.{IsLeftByPasses};
ghost use Rattle.version_store.specs.declared.message_fault.MessageFault.TheVariants.{NoMemory as OutOfMemory};

use crate::latest_departure::client::client_end;
use crate::{Asked, Opened, Unopened, open_home, printed};
use back_scan::ArriveQuery;
use cli_words::Publishing;
use lc_io::File;
use lc_world::Link;
use std::alloc::Global;
use timetable::Timetable;
use version_store::MessageFault;

/// Publishes a timetable, and gives the publisher the message of a file, if there is one. Then a client asks it how to arrive by a moment and
/// leave as late as possible, page by page back. Each reply is handed on over the link, which is given back.
pub fn ask_arrive<L: Link>(
    alloc: Global,
    made: Timetable,
    publishing: Publishing,
    file: &Option<File>,
    query: ArriveQuery,
    link: L,
) -> (Result<Asked, MessageFault>, L)
    ensures asked { IfOk result.0 (λ asked. IsAskedLatest made publishing file.now query (L.seen link) (L.seen result.1) asked.text.items asked.end) }
    ensures faulty { IfErr result.0 (IsFaulty file.now) }
    ensures unasked { IfErr result.0 (λ fault. fault ≢ OutOfMemory → result.1 ≡ link) }
    ensures left { IsLeftByPasses (L.seen link) (L.seen result.1) }
{
    match open_home(alloc, made, publishing, file, link) {
        Ok(opened) => ask_home(alloc, opened, query),
        Err(Unopened { fault, link }) => (Err(fault), link),
    }
}

/// Lets a client ask for the latest departure over the link at home, and takes the outer link out of it.
fn ask_home<L: Link>(
    alloc: Global,
    opened: Opened<L>,
    query: ArriveQuery,
) -> (Result<Asked, MessageFault>, L)
    ensures memory { IfErr result.0 (λ fault. fault ≡ OutOfMemory) }
    ensures asks { IfOk result.0 (λ asked. AsksPublisher opened.home.local.publisher opened.base opened.line.items query (L.seen opened.home.outer) (L.seen result.1) asked.text.items asked.end) }
    ensures left { IsLeftByPasses (L.seen opened.home.outer) (L.seen result.1) }
{
    let Opened {
        line,
        base,
        mut home,
    } = opened;
    let ended = client_end(alloc, query, &base, &mut home);
    (printed(alloc, line, ended), home.into_outer())
}
