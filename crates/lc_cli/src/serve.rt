ghost use Rattle.std.specs.Prelude.{IfErr, IfOk};
ghost use Rattle.cli_replay.specs.Inputs.Inputs.{IsRefusedFor};
ghost use Rattle.cli_serve.specs.Serve.{DoorNeverFell};
ghost use Rattle.lc_cli.specs.Serving.{IsServingEnd};
ghost use Rattle.cli_serve.specs.Written.{SinkNeverFell};
ghost use Rattle.gtfs_tables.specs.Reading.{Keeps};
ghost use Rattle.lc_cli.specs.Command.{IsServer};
ghost use Rattle.lc_cli.specs.Scope.{scope_of};

use crate::refusal::{NO_MEMORY, message_refusal, say};
use crate::scope::scope_of;
use crate::server::Server;
use crate::status::Status;
use cli_ask::serving_publisher;
use cli_replay::{Inputs, Refusal, read_inputs};
use cli_serve::ServeFault;
use cli_words::{Published, Serve};
use lc_io::{Door, Folder, Sink};
use std::alloc::Global;

/// Reads what is to be served, and makes its publisher.
pub(crate) fn server<F: Folder>(
    alloc: Global,
    folder: &mut F,
    serve: Serve,
) -> Result<Server, Refusal>
    ensures server { IfOk result (IsServer serve (F.seen folder.old) (F.seen folder.new)) }
    ensures refused { IfErr result (IsRefusedFor (scope_of serve.published.window) serve.published.update (F.seen folder.old) (F.seen folder.new)) }
    ensures kept { Keeps (F.seen folder.old) (F.seen folder.new) }
{
    let Serve {
        published,
        port,
        connections,
        accept_updates,
        ..
    } = serve;
    let Published {
        window,
        publishing,
        update,
    } = published;
    let scope = scope_of(window);
    match read_inputs(alloc, folder, &scope, update) {
        Ok(Inputs { made, file }) => {
            match serving_publisher(alloc, made, publishing, accept_updates, &file) {
                Ok((publisher, line)) => Ok(Server {
                    publisher,
                    line,
                    port,
                    connections,
                }),
                Err(fault) => Err(message_refusal(fault, file)),
            }
        }
        Err(refusal) => Err(refusal),
    }
}

/// Serves the connections, and says in one line why they were not all served, which is tried once. After a fault of the sink it says nothing.
pub(crate) fn serve<D: Door, S: Sink>(
    alloc: Global,
    server: Server,
    door: &mut D,
    out: &mut S,
) -> Status
    ensures end { IsServingEnd server (D.seen door.old) (D.seen door.new) (S.seen out.old) (S.seen out.new) result }
    ensures kept { SinkNeverFell (S.seen out.old) (S.seen out.new) }
    ensures door_counts { DoorNeverFell (D.seen door.old) (D.seen door.new) }
{
    let Server {
        publisher,
        line,
        port,
        connections,
        ..
    } = server;
    match cli_serve::serve(alloc, publisher, line, port, connections, door, out) {
        Ok(()) => Status::Done,
        Err(ServeFault::Door { before, after }) => {
            say(b"error door\n", out);
            Status::DoorFault { before, after }
        }
        Err(ServeFault::Sink { before, after }) => Status::SinkFault { before, after },
        Err(ServeFault::NoMemory) => {
            say(NO_MEMORY, out);
            Status::NoMemory
        }
    }
}
