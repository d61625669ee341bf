ghost use Rattle.std.specs.Prelude.{◌≡◌, ◌+◌, ◌<◌, ◌^◌};
ghost use Rattle.lc_cli.specs.Block.{IsBlockEnd, client_status_of, failed_status_of};
ghost use Rattle.cli_serve.specs.Written.{SinkNeverFell};

use crate::status::Status;
use cli_ask::ClientEnd;
use lc_io::{Sink, SinkFail, put_all};
use page_client::Outcome;

/// What is printed, and how the clients ended, if there are any, in the order in which they asked.
#[derive(Drop)]
pub struct Block {
    pub text: Vec<u8>,
    pub ends: Vec<ClientEnd>,
}

/// Writes the block whole, and ends with the status of its clients.
pub(crate) fn write_block<S: Sink>(block: Block, out: &mut S) -> Status
    ensures end { IsBlockEnd block (S.seen out.old) (S.seen out.new) result }
    ensures kept { SinkNeverFell (S.seen out.old) (S.seen out.new) }
{
    let before = out.faults();
    match put_all(out, block.text.as_slice()) {
        Ok(()) => client_status(block.ends),
        Err(SinkFail::Failed) => Status::SinkFault {
            before,
            after: out.faults(),
        },
        Err(SinkFail::NoMemory) => Status::NoMemory,
    }
}

/// The status of the first client without an answer, and of none.
fn client_status(ends: Vec<ClientEnd>) -> Status
    ensures { result ≡ client_status_of 1 ends.items }
{
    let mut client = 0;
    'clients: for end in ends {
        client += 1;
        if let Some(status) = failed_status(client, end.outcome) {
            return status;
        }
    }
    Status::Done
}

/// The status of a client without an answer.
fn failed_status(client: usize, outcome: Outcome) -> Option<Status>
    ensures { result ≡ failed_status_of client outcome }
{
    match outcome {
        Outcome::Found(_) | Outcome::NoJourney => None,
        Outcome::Refused(fault) => Some(Status::QueryRefused { client, fault }),
        Outcome::LinkFault { before, after } => Some(Status::LinkFault {
            client,
            before,
            after,
        }),
        Outcome::PeerWrong { reply, fault } => Some(Status::PeerWrong {
            client,
            reply,
            fault,
        }),
    }
}
