ghost use Rattle.std.specs.Prelude.{◌≡◌, ◌≢◌, ◌≤◌, ◌++◌, IfErr, IfOk, Ok};
ghost use Rattle.cli_ask.specs.Admission.{IsFaulty};
ghost use Rattle.cli_ask.specs.Asked.{AsksPublisher, IsAsked};
ghost use Rattle.cli_ask.specs.Block.{IsPrintable, client_text_of};
ghost use Rattle.lc_world.specs.GoneOn.{IsLeftByPasses};
ghost use Rattle.version_store.specs.declared.message_fault.MessageFault.TheVariants.{NoMemory as OutOfMemory};

use crate::ClientEnd;
use crate::block::push_client;
use crate::client::client_end;
use crate::opening::{Opened, Unopened, open_home};
use cli_words::Publishing;
use lc_io::File;
use lc_model::{NoMemory, Query};
use lc_world::Link;
use std::alloc::Global;
use timetable::Timetable;
use version_store::MessageFault;

/// What is printed of a question, and how its client ended.
#[derive(Drop)]
pub struct Asked {
    pub text: Vec<u8>,
    pub end: ClientEnd,
}

/// Publishes a timetable, and gives the publisher the message of a file, if there is one. Then a client asks it a question page by page.
/// Each reply is handed on over the link, which is given back. The client caches so many pages at most.
pub fn ask<L: Link>(
    alloc: Global,
    made: Timetable,
    publishing: Publishing,
    file: &Option<File>,
    query: Query,
    cache: usize,
    link: L,
) -> (Result<Asked, MessageFault>, L)
    requires some_pages { 1 ≤ cache }
    requires most_pages { cache ≤ 10_000 }
    ensures asked { IfOk result.0 (λ asked. IsAsked made publishing file.now query (L.seen link) (L.seen result.1) asked.text.items asked.end) }
    ensures faulty { IfErr result.0 (IsFaulty file.now) }
    ensures unasked { IfErr result.0 (λ fault. fault ≢ OutOfMemory → result.1 ≡ link) }
    ensures left { IsLeftByPasses (L.seen link) (L.seen result.1) }
{
    match open_home(alloc, made, publishing, file, link) {
        Ok(opened) => ask_home(alloc, opened, query, cache),
        Err(Unopened { fault, link }) => (Err(fault), link),
    }
}

/// Lets a client ask over the link at home, and takes the outer link out of it.
fn ask_home<L: Link>(
    alloc: Global,
    opened: Opened<L>,
    query: Query,
    cache: usize,
) -> (Result<Asked, MessageFault>, L)
    requires some_pages { 1 ≤ cache }
    requires most_pages { cache ≤ 10_000 }
    ensures memory { IfErr result.0 (λ fault. fault ≡ OutOfMemory) }
    ensures asks { IfOk result.0 (λ asked. AsksPublisher opened.home.local.publisher opened.base opened.line.items query (L.seen opened.home.outer) (L.seen result.1) asked.text.items asked.end) }
    ensures left { IsLeftByPasses (L.seen opened.home.outer) (L.seen result.1) }
{
    let Opened {
        line,
        base,
        mut home,
    } = opened;
    let ended = client_end(alloc, base, query, cache, &mut home);
    (printed(alloc, line, ended), home.into_outer())
}

/// The line of the message and those of the client, and how it ended.
pub fn printed(
    alloc: Global,
    line: Vec<u8>,
    ended: Result<ClientEnd, NoMemory>,
) -> Result<Asked, MessageFault>
    requires { IfOk ended (λ end. IsPrintable end.outcome) }
    ensures memory { IfErr result (λ fault. fault ≡ OutOfMemory) }
    ensures text { IfOk result (λ asked. asked.text.items ≡ line.items ++ client_text_of 1 asked.end) }
    ensures end { IfOk result (λ asked. ended ≡ Ok asked.end) }
{
    let mut text = line;
    match ended {
        Ok(end) => match push_client(alloc, 1, &end, &mut text) {
            Ok(()) => Ok(Asked { text, end }),
            Err(NoMemory) => Err(MessageFault::NoMemory),
        },
        Err(NoMemory) => Err(MessageFault::NoMemory),
    }
}
