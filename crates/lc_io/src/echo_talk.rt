ghost use Rattle.std.specs.Prelude.{◌≡◌, ◌+◌, ◌<◌, ◌≤◌, ◌-◌, ◌++◌, ◌||◌, ◌==◌, ℕ, List, [], true, false, length, min, take, drop, IsTrue, OnErr, OnOk};
ghost use Rattle.lc_io.specs.EchoTalk.{EchoTalkState, HasEchoed};

use crate::Talk;
use lc_model::NoMemory;
use std::alloc::Global;
use std::marker::Model;

/// A talk in memory that gives back what it is fed, so many bytes at most. Each byte is a request, and its own reply.
#[derive(Drop)]
pub struct EchoTalk {
    limit: u32,
    requests: u32,
    given: Vec<u8>,
    sent: usize,
    spent: bool,
}

impl Model for EchoTalk {
    ghost use Rattle.std.specs.Prelude.{◌≤◌, drop, length};
    ghost use Rattle.lc_io.specs.EchoTalk.{EchoTalkState};

    ghost Value = { EchoTalkState };

    ghost view = { λ t. record { limit = t.limit; requests = t.requests; pending = drop t.sent t.given.items; spent = t.spent } };

    ghost invariant = { λ t. (t.requests ≤ t.limit) × (t.limit ≤ 1679360000) × (t.sent ≤ length t.given.items) };
}

impl EchoTalk {
    /// A talk that gives back so many bytes.
    pub fn new(alloc: Global, limit: u32) -> EchoTalk
        requires { limit ≤ 1679360000 }
        ensures { result ≡ record { limit = limit; requests = 0; pending = []; spent = false } }
    {
        EchoTalk {
            limit,
            requests: 0,
            given: Vec::new(alloc),
            sent: 0,
            spent: false,
        }
    }

    /// How many of so many bytes more it gives back.
    fn room_for(&self, length: usize) -> usize
        ensures room { result ≡ min (self.now.limit - self.now.requests) length }
        ensures within { self.now.requests ≤ self.now.limit }
    {
        length.min((self.limit - self.requests) as usize)
    }

    /// Gives these bytes back.
    fn give(&mut self, bytes: &[u8]) -> Result<(), NoMemory>
        requires { self.old.requests + length bytes.now ≤ self.old.limit }
        ensures ok { OnOk result (self.new ≡ record self.old { requests = self.old.requests + length bytes.now; pending = self.old.pending ++ bytes.now }) }
        ensures err { OnErr result (self.new ≡ record self.old { spent = true }) }
    {
        if self.given.extend_from_slice(bytes).is_err() {
            self.spent = true;
            return Err(NoMemory);
        }
        self.requests += bytes.len() as u32;
        Ok(())
    }
}

impl Talk for EchoTalk {
    ghost use Rattle.std.specs.Prelude.{ℕ};
    ghost use Rattle.lc_io.specs.EchoTalk.{Echoes, HasEchoed, echo_said, echo_seen, no_echo, one_echo};

    ghost Start = { ℕ };

    ghost seen = { echo_seen };

    ghost says = { Echoes };

    ghost stands = { HasEchoed };

    fn feed_piece(&mut self, alloc: Global, piece: &[u8]) -> Result<(), NoMemory> {
        if self.ended() {
            return Ok(());
        }
        let count = self.room_for(piece.len());
        self.give(&piece[..count])?;
        Ok(())
    }

    fn pending(&self) -> &[u8] {
        &self.given[self.sent..]
    }

    fn sent(&mut self, count: usize) {
        self.sent += count;
    }

    fn ended(&self) -> bool {
        self.spent || self.requests == self.limit
    }

    fn requests(&self) -> u32 {
        self.requests
    }

    ghost said = { echo_said };

    ghost one = { one_echo };

    ghost nothing = { no_echo };
}
