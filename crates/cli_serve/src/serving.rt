ghost use Rattle.std.specs.Prelude.{◌≡◌, ◌++◌, ℕ, List, []};
ghost use Rattle.publisher.specs.Held.{side_of};
ghost use Rattle.lc_world.specs.Sides.Side.{Side};
ghost use Rattle.cli_serve.specs.Serving.{StandsOut};
ghost use Rattle.wire_session.specs.Phase.{is_ended};
ghost use Rattle.wire_session.specs.Stands.{IsOutput, Means, Stands, fresh};

use fragmenter::Fragmenter;
use lc_io::Talk;
use lc_model::NoMemory;
use publisher::Publisher;
use std::alloc::Global;
use std::marker::Model;
use wire_session::Session;

/// A talk that owns the session of a connection and the publisher that answers its requests. It holds nothing of what it was fed.
#[derive(Drop)]
pub struct Serving<G: Fragmenter + Drop> {
    session: Session,
    publisher: Publisher<G>,
    count: u64,
}

impl<G: Fragmenter + Drop> Model for Serving<G> {
    ghost use Rattle.std.specs.Prelude.{◌≡◌};
    ghost use Rattle.cli_serve.specs.Serving.{ServingState, WasFed};
    ghost use Rattle.wire_session.specs.declared.phase.Phase.TheVariants.{Open};

    ghost Value = { ServingState G };

    ghost view = { λ s. record { session = s.session; publisher = s.publisher; count = s.count } };

    ghost invariant = { λ s. s.session.phase ≡ Open → WasFed G.cuts_of s.session s.publisher s.count };
}

impl<G: Fragmenter + Drop> Serving<G> {
    /// The talk of a connection on which no byte has come, with the publisher that answers. It takes no memory.
    pub fn new(session: Session, publisher: Publisher<G>) -> Serving<G>
        requires fresh { session ≡ fresh }
        requires stands { (side : Side) → Stands session side [] [] side }
        ensures { result ≡ record { session = session; publisher = publisher; count = 0 } }
    {
        Serving {
            session,
            publisher,
            count: 0,
        }
    }

    /// The publisher, as the requests have left it. It takes no memory.
    pub fn into_publisher(self) -> Publisher<G>
        ensures publisher { result ≡ self.publisher }

        // Whatever the talk stands for, this is the side that the requests leave.
        ensures left { (start : Side) (fed sent : List ℕ) → StandsOut G.cuts_of self start fed sent
            → IsOutput start fed (sent ++ self.session.pending) self.session.requests (side_of G.cuts_of result) (is_ended self.session.phase) }

        // Where memory has run out too, this is the side of its session.
        ensures means { (start : Side) (fed sent : List ℕ) → Stands self.session start fed sent (side_of G.cuts_of self.publisher)
            → Means self.session start fed sent (side_of G.cuts_of result) }
    {
        self.publisher
    }
}

impl<G: Fragmenter + Drop> Talk for Serving<G> {
    ghost use Rattle.lc_world.specs.Sides.Side.{Side};
    ghost use Rattle.cli_serve.specs.Serving.{SaysOut, StandsOut, serving_seen};
    ghost use Rattle.cli_serve.specs.Said.{said_of, one_out, nothing_said};

    ghost Start = { Side };

    ghost seen = { serving_seen };

    ghost says = { SaysOut };

    ghost stands = { λ s start fed sent. StandsOut G.cuts_of s start fed sent };

    fn feed_piece(&mut self, alloc: Global, piece: &[u8]) -> Result<(), NoMemory> {
        self.session.feed(alloc, &mut self.publisher, piece)?;
        if !self.session.ended() {
            self.count += piece.len() as u64;
        }
        Ok(())
    }

    fn pending(&self) -> &[u8] {
        self.session.pending()
    }

    fn sent(&mut self, count: usize) {
        self.session.sent(count);
    }

    fn ended(&self) -> bool {
        self.session.ended()
    }

    fn requests(&self) -> u32 {
        self.session.requests()
    }

    ghost said = { said_of G.cuts_of };

    ghost one = { one_out };

    ghost nothing = { nothing_said };
}
