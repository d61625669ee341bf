ghost use Rattle.std.specs.Prelude.{◌≡◌, ◌<◌, ◌≤◌, false, length, Ok, IfOk, IfSome, IsErrOf, IsTrue};
ghost use Rattle.lc_io.specs.Counts.{HasCause};
ghost use Rattle.lc_io.specs.Door.{AgreesWith, Comes, DoorSeen, GoesOn, Listens, OnCurrent, Reads, Writes, connected_after, hung_up, listens_after};
ghost use Rattle.lc_io.specs.declared.door.DoorFail.TheVariants.{Failed, NoMemory as OutOfMemory};

use lc_model::NoMemory;

/// Why a door did not do what it was asked.
#[derive(Clone, Copy, PartialEq, Eq)]
pub enum DoorFail {
    Failed,
    NoMemory,
}

impl From<NoMemory> for DoorFail {
    ghost from_gives = { λ _ fail. fail ≡ OutOfMemory };

    fn from(_: NoMemory) -> DoorFail {
        DoorFail::NoMemory
    }
}

/// What came to a door.
#[derive(Clone, Copy, PartialEq, Eq)]
pub enum Next {
    /// A connection, which is the current one from now on.
    Connection,
    /// No further connection comes.
    Closed,
}

/// A door to clients, who come one after the other.
pub trait Door {
    /// What is known of the door.
    ghost seen: { Self → DoorSeen };

    /// Opens the door at a port.
    fn listen(&mut self, port: u16) -> Result<(), DoorFail>
        ensures listens { (seen self.new).listens ≡ listens_after result (seen self.old).listens }
        ensures recorded { GoesOn (Listens port result) (seen self.old).recorded (seen self.new).recorded }
        ensures faults { HasCause (seen self.old).faults (seen self.new).faults (IsErrOf result Failed) }
        ensures connected { (seen self.new).connected ≡ (seen self.old).connected }
        ensures broken { (seen self.new).broken ≡ (seen self.old).broken };

    /// Waits for the next client. What was the current connection is a past one from now on.
    fn next(&mut self) -> Result<Next, DoorFail>
        requires { IsTrue (seen self.old).listens }
        ensures connected { (seen self.new).connected ≡ connected_after result }
        ensures recorded { GoesOn (Comes result) (seen self.old).recorded (seen self.new).recorded }
        ensures faults { HasCause (seen self.old).faults (seen self.new).faults (IsErrOf result Failed) }
        ensures listens { (seen self.new).listens ≡ (seen self.old).listens }
        ensures broken { (seen self.new).broken ≡ (seen self.old).broken };

    /// Puts bytes of the current client into the front of the piece, and says how many. 0 bytes into a piece that is
    /// not empty are the end of the input. Without a current connection there are none.
    fn read(&mut self, piece: &mut [u8]) -> Result<usize, DoorFail>
        ensures at_most { IfOk result (λ n. n ≤ length piece.old) }
        ensures nobody { (seen self.old).connected ≡ false → result ≡ Ok 0 }
        ensures recorded { GoesOn (OnCurrent (Reads piece.new result)) (seen self.old).recorded (seen self.new).recorded }
        ensures broken { HasCause (seen self.old).broken (seen self.new).broken (IsErrOf result Failed) }
        ensures others { seen self.new ≡ record (seen self.old) { recorded = (seen self.new).recorded; broken = (seen self.new).broken } };

    /// Sends bytes of the front of the piece to the current client, at least one of a piece that is not empty. It says how many.
    fn write(&mut self, piece: &[u8]) -> Result<usize, DoorFail>
        requires { IsTrue (seen self.old).connected }
        ensures at_most { IfOk result (λ n. n ≤ length piece.now) }
        ensures at_least { IfOk result (λ n. 0 < length piece.now → 0 < n) }
        ensures recorded { GoesOn (OnCurrent (Writes piece.now result)) (seen self.old).recorded (seen self.new).recorded }
        ensures broken { HasCause (seen self.old).broken (seen self.new).broken (IsErrOf result Failed) }
        ensures others { seen self.new ≡ record (seen self.old) { recorded = (seen self.new).recorded; broken = (seen self.new).broken } };

    /// Ends the current connection.
    fn hang_up(&mut self)
        ensures recorded { GoesOn (λ before after. after ≡ hung_up before) (seen self.old).recorded (seen self.new).recorded }
        ensures others { seen self.new ≡ record (seen self.old) { connected = false; recorded = (seen self.new).recorded } };

    /// How often `read` or `write` has failed.
    fn broken(&self) -> u64
        ensures { result ≡ (seen self.now).broken };

    /// How often `listen` or `next` has failed.
    fn faults(&self) -> u64
        ensures { result ≡ (seen self.now).faults };

    ghost agrees: { (door : Self) → IfSome (seen door).recorded (AgreesWith (seen door).listens (seen door).connected) };
}
