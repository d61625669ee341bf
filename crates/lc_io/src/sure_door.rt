ghost use Rattle.std.specs.Prelude.{◌≡◌, ◌<◌, ◌≤◌, ◌-◌, ◌++◌, false, length, take, Ok, Err, Some, IfOk, IsErrOf, IsOk, IsTrue, OnErr, OnOk, slice_get};
ghost use Rattle.std.specs.Option.{is_some, option_map};
ghost use Rattle.lc_io.specs.Counts.{HasCause};
ghost use Rattle.lc_io.specs.Door.{Comes, GoesOn, Listens, OnCurrent, Reads, Writes, connected_after, hung_up, listens_after};
ghost use Rattle.lc_io.specs.MemWire.{MemWireState, ReadsPiece};
ghost use Rattle.lc_io.specs.MemWires.{ComesTo, came, let_go, opened_for, recorded_of};
ghost use Rattle.lc_io.specs.declared.door.DoorFail.TheVariants.{Failed};

use crate::mem_wires::MemWires;
use crate::{Door, DoorFail, Next, Pieces};
use lc_model::NoMemory;
use std::alloc::Global;
use std::marker::Model;

/// A door in memory, of which no call fails. One read takes from one piece alone.
#[derive(Drop)]
pub struct SureDoor {
    wires: MemWires,
}

impl Model for SureDoor {
    ghost use Rattle.lc_io.specs.MemWires.{MemWiresState};

    ghost Value = { MemWiresState };

    ghost view = { λ d. d.wires };
}

impl SureDoor {
    /// A door at which these connections come, one after the other.
    pub fn new(alloc: Global, connections: Vec<Pieces>) -> Result<SureDoor, NoMemory>
        ensures { IfOk result (λ door. door ≡ opened_for connections.items) }
    {
        Ok(SureDoor {
            wires: MemWires::new(alloc, connections),
        })
    }

    /// The port of the last `listen` that was Ok.
    pub fn port(&self) -> Option<u16>
        ensures { result ≡ self.now.port }
    {
        self.wires.port()
    }

    /// How many connections came.
    pub fn taken(&self) -> usize
        ensures { result ≡ length (came self.now) }
    {
        self.wires.taken()
    }

    /// The bytes sent on the connection of this number, from 1.
    pub fn sent(&self, connection: usize) -> &[u8]
        requires from { 0 < connection }
        requires to { connection ≤ length (came self.now) }
        ensures { option_map (λ (wire : MemWireState). wire.sent) (slice_get (came self.now) (connection - 1)) ≡ Some result.now }
    {
        self.wires.sent(connection)
    }
}

impl Door for SureDoor {
    ghost use Rattle.lc_io.specs.MemWires.{seen_of, recorded_agrees};

    ghost seen = { λ d. seen_of d 0 0 };

    fn listen(&mut self, port: u16) -> Result<(), DoorFail>
        ensures always { IsOk result }
        ensures opens { self.new ≡ record self.old { port = Some port } }
        ensures listens { is_some self.new.port ≡ listens_after result (is_some self.old.port) }
        ensures recorded { Listens port result (recorded_of self.old) (recorded_of self.new) }
        ensures faults { HasCause 0 0 (IsErrOf result Failed) }
        ensures connected { is_some self.new.current ≡ is_some self.old.current }
    {
        self.wires.listen(port);
        Ok(())
    }

    fn next(&mut self) -> Result<Next, DoorFail>
        ensures never { IsErrOf result Failed → ⊥ }
        ensures comes { ComesTo result self.old self.new }
        ensures connected { is_some self.new.current ≡ connected_after result }
        ensures recorded { Comes result (recorded_of self.old) (recorded_of self.new) }
        ensures faults { HasCause 0 0 (IsErrOf result Failed) }
        ensures listens { is_some self.new.port ≡ is_some self.old.port }
    {
        self.wires.next()
    }

    fn read(&mut self, piece: &mut [u8]) -> Result<usize, DoorFail>
        ensures always { IsOk result }
        ensures current { IfOk result (λ n. GoesOn (λ before after. ReadsPiece before after piece.old piece.new n) self.old.current self.new.current) }
        ensures unchanged { self.new ≡ record self.old { current = self.new.current } }
        ensures at_most { IfOk result (λ n. n ≤ length piece.old) }
        ensures untouched { self.old.current ≡ None → piece.new ≡ piece.old }
        ensures nobody { is_some self.old.current ≡ false → result ≡ Ok 0 }
        ensures recorded { OnCurrent (Reads piece.new result) (recorded_of self.old) (recorded_of self.new) }
        ensures broken { HasCause 0 0 (IsErrOf result Failed) }
    {
        Ok(self.wires.read(piece))
    }

    fn write(&mut self, piece: &[u8]) -> Result<usize, DoorFail>
        ensures never { IsErrOf result Failed → ⊥ }
        ensures sent { OnOk result (self.new ≡ record self.old { current = option_map (λ (wire : MemWireState). record wire { sent = wire.sent ++ piece.now }) self.old.current }) }
        ensures all { IfOk result (λ n. n ≡ length piece.now) }
        ensures no_memory { OnErr result (self.new ≡ self.old) }
        ensures at_most { IfOk result (λ n. n ≤ length piece.now) }
        ensures at_least { IfOk result (λ n. 0 < length piece.now → 0 < n) }
        ensures recorded { OnCurrent (Writes piece.now result) (recorded_of self.old) (recorded_of self.new) }
        ensures broken { HasCause 0 0 (IsErrOf result Failed) }
    {
        self.wires.write(piece)
    }

    fn hang_up(&mut self)
        ensures hung_up { self.new ≡ let_go self.old }
        ensures recorded { recorded_of self.new ≡ hung_up (recorded_of self.old) }
    {
        self.wires.hang_up()
    }

    fn broken(&self) -> u64 {
        0
    }

    fn faults(&self) -> u64 {
        0
    }

    ghost agrees = { recorded_agrees };
}
