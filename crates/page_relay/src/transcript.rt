ghost use Rattle.std.specs.Prelude.{◌≡◌, ◌∷◌, ◌++◌, []};
ghost use Rattle.lc_world.specs.ListLink.{entry_of};
ghost use Rattle.page_relay.specs.Recorded.{Records, recorded_reply};

use crate::SentRequest;
use crate::recorded::Recorded;
use http_server::Log;
use lc_world::LinkFail;
use std::marker::Model;
use std::snapshot::Snapshot;

/// The exchanges that were asked for, with how each ended. It takes no memory, since only proofs read it.
#[derive(Drop)]
pub(crate) struct Transcript {
    recorded: Log<Recorded, ()>,
}

impl Model for Transcript {
    ghost use Rattle.std.specs.Prelude.{List};
    ghost use Rattle.lc_world.specs.declared.entry.Entry.{Entry};
    ghost use Rattle.page_relay.specs.Transcript.{entries_of};

    ghost Value = { List Entry };

    ghost view = { λ t. entries_of t.recorded.items };
}

impl Transcript {
    pub(crate) fn new() -> Transcript
        ensures { result ≡ [] }
    {
        Transcript {
            recorded: Log::new(),
        }
    }

    /// Records an exchange with the reply that it gave, or that it failed. One in which memory ran out is not recorded.
    pub(crate) fn add(
        &mut self,
        sent: Snapshot<SentRequest>,
        ended: &Result<(), LinkFail>,
        reply: &Vec<u8>,
    )
        ensures { Records self.old self.new sent.value.authority sent.value.request reply.now.items ended.now }
    {
        match ended {
            Ok(()) => self.push(sent, true, reply),
            Err(LinkFail::Failed) => self.push(sent, false, reply),
            Err(LinkFail::NoMemory) => {}
        }
    }

    /// Records an exchange: with this reply if one came, and else that it failed.
    fn push(&mut self, sent: Snapshot<SentRequest>, came: bool, reply: &Vec<u8>)
        ensures { self.new ≡ self.old ++ entry_of sent.value.authority sent.value.request (recorded_reply came reply.now.items) ∷ [] }
    {
        let reply = Snapshot::of(reply);
        self.recorded = self.recorded.and(&Recorded { sent, came, reply }, &());
    }
}
