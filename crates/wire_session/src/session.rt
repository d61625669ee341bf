ghost use Rattle.std.specs.Prelude.{◌≡◌, ◌≢◌, ◌<◌, ◌≤◌, ◌++◌, ℕ, false, List, [], drop, length, take, IfOk};
ghost use Rattle.publisher.specs.Held.{side_of};
ghost use Rattle.lc_world.specs.Sides.Side.{Side};
ghost use Rattle.wire_session.specs.Phase.{is_ended};
ghost use Rattle.wire_session.specs.Session.{phase_of};
ghost use Rattle.wire_session.specs.Stands.{Means, Stands, fresh};
ghost use Rattle.wire_session.specs.Steps.{KeepsFront};
ghost use Rattle.wire_session.specs.declared.phase.Phase.TheVariants.{Open as IsOpen};

use crate::Fed;
use crate::hearing::hear;
use crate::output::Output;
use crate::phase::Phase;
use crate::replies::Replies;
use fragmenter::Fragmenter;
use http_text::HeadRoom;
use lc_model::NoMemory;
use publisher::Publisher;
use std::alloc::Global;
use std::marker::Model;

/// The session of one connection: what was fed of requests and is not answered, and what is to be sent of their replies. A contract
/// sees these, the number of replies, and whether it goes on. It stands for all bytes that it was fed and all replies to them.
#[derive(Drop)]
pub struct Session {
    room: HeadRoom,
    input: Vec<u8>,
    replies: Replies,
    phase: Phase,
}

impl Model for Session {
    ghost use Rattle.wire_session.specs.Stands.{Held};

    ghost Value = { Held };

    ghost use Rattle.wire_session.specs.Session.{HasRoom, held_of};

    ghost view = { held_of };

    ghost invariant = { HasRoom };
}

impl Session {
    /// The session of a connection on which no byte has come.
    pub fn new(alloc: Global) -> Result<Session, NoMemory>
        ensures stands { IfOk result (λ session. (side : Side) → Stands session side [] [] side) }
        ensures fresh { IfOk result (λ session. session ≡ fresh) }
    {
        Ok(Session {
            room: HeadRoom::new(alloc)?,
            input: Vec::new(alloc),
            replies: Replies {
                output: Output::new(alloc),
                count: 0,
            },
            phase: Phase::Open,
        })
    }

    /// Takes the next piece of what comes on the connection, and answers each request that is whole now. Once it has ended, or memory
    /// has run out, it drops what comes. A body that is awaited is not looked at before it is whole. Of an open head each piece costs
    /// one more look at its at most 16,384 bytes.
    pub fn feed<G: Fragmenter + Drop>(
        &mut self,
        alloc: Global,
        publisher: &mut Publisher<G>,
        piece: &[u8],
    ) -> Result<Fed, NoMemory>
        ensures stands { (start : Side) (fed sent : List ℕ) → Stands self.old start fed sent (side_of G.cuts_of publisher.old)
            → Stands self.new start (fed ++ piece.now) sent (side_of G.cuts_of publisher.new) }
        ensures phase { self.new.phase ≡ phase_of result }
        ensures dropped { self.old.phase ≢ IsOpen → (self.new ≡ self.old) × (publisher.new ≡ publisher.old) }
        ensures keeps { KeepsFront self.old.pending self.new.pending }
        ensures cutting { publisher.new.cutting ≡ publisher.old.cutting }
    {
        match self.phase {
            Phase::Open => self.hear(alloc, publisher, piece),
            Phase::Ended => Ok(Fed::Ended),
            Phase::Spent => Err(NoMemory),
        }
    }

    fn hear<G: Fragmenter + Drop>(
        &mut self,
        alloc: Global,
        publisher: &mut Publisher<G>,
        piece: &[u8],
    ) -> Result<Fed, NoMemory>
        requires { self.old.phase ≡ IsOpen }
        ensures stands { (start : Side) (fed sent : List ℕ) → Stands self.old start fed sent (side_of G.cuts_of publisher.old)
            → Stands self.new start (fed ++ piece.now) sent (side_of G.cuts_of publisher.new) }
        ensures phase { self.new.phase ≡ phase_of result }
        ensures keeps { KeepsFront self.old.pending self.new.pending }
        ensures cutting { publisher.new.cutting ≡ publisher.old.cutting }
    {
        match hear(
            alloc,
            &mut self.room,
            publisher,
            &mut self.replies,
            &mut self.input,
            piece,
        ) {
            Ok(Fed::More) => Ok(Fed::More),
            Ok(Fed::Ended) => {
                self.phase = Phase::Ended;
                Ok(Fed::Ended)
            }
            Err(NoMemory) => {
                self.phase = Phase::Spent;
                Err(NoMemory)
            }
        }
    }

    /// What is to be sent. With what was sent it is what a session says to all bytes that it was fed, however they were cut.
    pub fn pending(&self) -> &[u8]
        ensures value { result.now ≡ self.now.pending }
        ensures means { (start : Side) (fed sent : List ℕ) (side : Side) → Stands self.now start fed sent side
            → Means self.now start fed sent side }
    {
        self.replies.output.left()
    }

    /// This many of the pending bytes were sent.
    pub fn sent(&mut self, count: usize)
        requires { count ≤ length self.old.pending }
        ensures stands { (start : Side) (fed sent : List ℕ) (side : Side) → Stands self.old start fed sent side
            → Stands self.new start fed (sent ++ take count self.old.pending) side }
        ensures same { self.new ≡ record self.old { pending = drop count self.old.pending } }
    {
        self.replies.output.take(count);
    }

    /// Whether it gave the last reply, or memory has run out. Before that a session was fed less than 100 requests with heads and
    /// bodies at their limits have.
    pub fn ended(&self) -> bool
        ensures value { result ≡ is_ended self.now.phase }
        ensures bounded { (start : Side) (fed sent : List ℕ) (side : Side) → Stands self.now start fed sent side
            → is_ended self.now.phase ≡ false → length fed < 1_679_360_000 }
    {
        self.phase != Phase::Open
    }

    /// The number of replies.
    pub fn requests(&self) -> u32
        ensures { result ≡ self.now.requests }
    {
        self.replies.count
    }
}
