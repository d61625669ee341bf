ghost use Rattle.std.specs.Prelude.{◌≡◌, ◌+◌, ◌<◌, ◌++◌, ◌∷◌, [], List};
ghost use Rattle.cli_serve.specs.Tally.{Fits, IsTallyOf, ended_so};
ghost use Rattle.cli_serve.specs.Visit.{Visit};
ghost use Rattle.cli_serve.specs.Visiting.{CameOut};

use lc_io::{DoorFail, Served};
use lc_model::NoMemory;

/// What is counted of the connections so far.
#[derive(Clone, Copy)]
pub struct Tally {
    /// How many were taken.
    pub connections: u32,
    /// How many requests were answered on them.
    pub requests: u64,
    /// On how many a read or a write failed.
    pub faults: u32,
    /// Whether memory ran out on one.
    pub lost: bool,
}

impl Tally {
    /// The tally of no connection.
    pub fn new() -> Tally
        ensures none { IsTallyOf [] result }
        ensures fits { Fits result }
    {
        Tally {
            connections: 0,
            requests: 0,
            faults: 0,
            lost: false,
        }
    }

    /// Why no further client is taken where the door fails so. Memory that ran out on a connection comes first.
    pub fn ended_by(self, fail: DoorFail) -> DoorFail
        ensures { result ≡ ended_so self.lost fail }
    {
        if self.lost { DoorFail::NoMemory } else { fail }
    }

    /// Counts a connection.
    pub fn count(&mut self, outcome: Result<Served, NoMemory>)
        requires few { self.old.connections < 1_000_000 }
        requires fits { Fits self.old }
        ensures more { (visits : List Visit) (visit : Visit) → IsTallyOf visits self.old → CameOut outcome visit → IsTallyOf (visits ++ visit ∷ []) self.new }
        ensures one { self.new.connections ≡ self.old.connections + 1 }
        ensures fits { Fits self.new }
    {
        self.connections += 1;
        match outcome {
            Ok(served) => {
                self.requests += u64::from(served.requests);
                self.faults += u32::from(served.fault);
            }
            Err(NoMemory) => self.lost = true,
        }
    }
}
