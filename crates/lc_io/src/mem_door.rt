ghost use Rattle.std.specs.Prelude.{◌≡◌, ◌<◌, ◌≤◌, ◌-◌, ◌++◌, ◌↔◌, [], true, false, length, take, Ok, Err, Some, IfOk, IsErrOf, IsSome, IsTrue, OnErr, OnOk, slice_get};
ghost use Rattle.std.specs.Option.{is_some, option_map};
ghost use Rattle.lc_io.specs.Counts.{Counts, HasCause, one_more};
ghost use Rattle.lc_io.specs.Door.{Comes, GoesOn, Listens, OnCurrent, Reads, Writes, connected_after, hung_up, listens_after};
ghost use Rattle.lc_io.specs.MemDoor.{FailsNext, MemDoorState};
ghost use Rattle.lc_io.specs.MemWire.{MemWireState, ReadsPiece};
ghost use Rattle.lc_io.specs.MemWires.{ComesTo, came, let_go, opened_for, recorded_of};
ghost use Rattle.lc_io.specs.declared.door.DoorFail.TheVariants.{Failed};

use crate::mem_wires::MemWires;
use crate::{Door, DoorFail, Next, Pieces};
use lc_model::NoMemory;
use std::alloc::Global;
use std::marker::Model;

/// A door in memory, some of whose calls fail. Calls are numbered from 1, through `listen`, `next`, `read` and `write`.
#[derive(Drop)]
pub struct MemDoor {
    wires: MemWires,
    fails: Vec<u64>,
    calls: u64,
    faults: u64,
    broken: u64,
}

impl Model for MemDoor {
    ghost use Rattle.lc_io.specs.MemDoor.{MemDoorState};

    ghost Value = { MemDoorState };

    ghost view = { λ d. record { wires = d.wires; fails = d.fails.items; calls = d.calls; faults = d.faults; broken = d.broken } };
}

impl MemDoor {
    /// A door at which these connections come, one after the other, and of which the calls of these numbers fail.
    pub fn new(
        alloc: Global,
        connections: Vec<Pieces>,
        fails: Vec<u64>,
    ) -> Result<MemDoor, NoMemory>
        ensures { IfOk result (λ door. door ≡ record { wires = opened_for connections.items; fails = fails.items; calls = 0; faults = 0; broken = 0 }) }
    {
        Ok(MemDoor {
            wires: MemWires::new(alloc, connections),
            fails,
            calls: 0,
            faults: 0,
            broken: 0,
        })
    }

    /// The port of the last `listen` that was Ok.
    pub fn port(&self) -> Option<u16>
        ensures { result ≡ self.now.wires.port }
    {
        self.wires.port()
    }

    /// How many connections came.
    pub fn taken(&self) -> usize
        ensures { result ≡ length (came self.now.wires) }
    {
        self.wires.taken()
    }

    /// The bytes sent on the connection of this number, from 1.
    pub fn sent(&self, connection: usize) -> &[u8]
        requires from { 0 < connection }
        requires to { connection ≤ length (came self.now.wires) }
        ensures { option_map (λ (wire : MemWireState). wire.sent) (slice_get (came self.now.wires) (connection - 1)) ≡ Some result.now }
    {
        self.wires.sent(connection)
    }

    /// Counts a call, and says whether it is one of those that fail.
    fn fails_now(&mut self) -> bool
        ensures counted { self.new ≡ record self.old { calls = one_more self.old.calls } }
        ensures listed { IsTrue result ↔ FailsNext self.old }
    {
        self.calls = self.calls.saturating_add(1);
        self.fails.contains(&self.calls)
    }

    /// Counts a failed `listen` or `next`.
    fn fault(&mut self) -> DoorFail
        ensures counted { self.new ≡ record self.old { faults = one_more self.old.faults } }
        ensures not_fallen { self.old.faults ≤ self.new.faults }
        ensures failed { result ≡ Failed }
    {
        self.faults = self.faults.saturating_add(1);
        DoorFail::Failed
    }

    /// Counts a failed `read` or `write`.
    fn break_off(&mut self) -> DoorFail
        ensures counted { self.new ≡ record self.old { broken = one_more self.old.broken } }
        ensures not_fallen { self.old.broken ≤ self.new.broken }
        ensures failed { result ≡ Failed }
    {
        self.broken = self.broken.saturating_add(1);
        DoorFail::Failed
    }
}

impl Door for MemDoor {
    ghost use Rattle.lc_io.specs.MemDoor.{MemDoorState};
    ghost use Rattle.lc_io.specs.MemWires.{seen_of, recorded_agrees};

    ghost seen = { λ d. seen_of d.wires d.faults d.broken };

    fn listen(&mut self, port: u16) -> Result<(), DoorFail>
        ensures listed { IsErrOf result Failed ↔ FailsNext self.old }
        ensures never { OnErr result (result ≡ Err DoorFail.Failed) }
        ensures opens { OnOk result (self.new ≡ record self.old { wires = record self.old.wires { port = Some port }; calls = one_more self.old.calls }) }
        ensures fails { OnErr result (self.new ≡ record self.old { calls = one_more self.old.calls; faults = one_more self.old.faults }) }
        ensures listens { is_some self.new.wires.port ≡ listens_after result (is_some self.old.wires.port) }
        ensures recorded { Listens port result (recorded_of self.old.wires) (recorded_of self.new.wires) }
        ensures faults { HasCause self.old.faults self.new.faults (IsErrOf result Failed) }
        ensures connected { is_some self.new.wires.current ≡ is_some self.old.wires.current }
        ensures broken { self.new.broken ≡ self.old.broken }
    {
        if self.fails_now() {
            return Err(self.fault());
        }
        self.wires.listen(port);
        Ok(())
    }

    fn next(&mut self) -> Result<Next, DoorFail>
        ensures listed { IsErrOf result Failed ↔ FailsNext self.old }
        ensures comes { ComesTo result self.old.wires self.new.wires }
        ensures others { self.new ≡ record self.old { wires = self.new.wires; calls = one_more self.old.calls; faults = self.new.faults } }
        ensures each_fault { Counts self.old.faults self.new.faults (IsErrOf result Failed) }
        ensures connected { is_some self.new.wires.current ≡ connected_after result }
        ensures recorded { Comes result (recorded_of self.old.wires) (recorded_of self.new.wires) }
        ensures faults { HasCause self.old.faults self.new.faults (IsErrOf result Failed) }
        ensures listens { is_some self.new.wires.port ≡ is_some self.old.wires.port }
        ensures broken { self.new.broken ≡ self.old.broken }
    {
        if self.fails_now() {
            self.wires.hang_up();
            return Err(self.fault());
        }
        self.wires.next()
    }

    fn read(&mut self, piece: &mut [u8]) -> Result<usize, DoorFail>
        ensures listed { IsErrOf result Failed ↔ (FailsNext self.old × IsSome self.old.wires.current) }
        ensures never { OnErr result (result ≡ Err DoorFail.Failed) }
        ensures current { IfOk result (λ n. GoesOn (λ before after. ReadsPiece before after piece.old piece.new n) self.old.wires.current self.new.wires.current) }
        ensures fails { OnErr result (self.new.wires ≡ record self.old.wires { current = option_map (λ (wire : MemWireState). record wire { failed = true; read_failed = true }) self.old.wires.current }) }
        ensures unchanged { self.new ≡ record self.old {
          wires = record self.old.wires { current = self.new.wires.current };
          calls = one_more self.old.calls;
          broken = self.new.broken;
        } }
        ensures each_fault { Counts self.old.broken self.new.broken (IsErrOf result Failed) }
        ensures at_most { IfOk result (λ n. n ≤ length piece.old) }
        ensures nobody { is_some self.old.wires.current ≡ false → result ≡ Ok 0 }
        ensures recorded { OnCurrent (Reads piece.new result) (recorded_of self.old.wires) (recorded_of self.new.wires) }
        ensures broken { HasCause self.old.broken self.new.broken (IsErrOf result Failed) }
    {
        if self.fails_now() && self.wires.is_connected() {
            self.wires.fail_read();
            return Err(self.break_off());
        }
        Ok(self.wires.read(piece))
    }

    fn write(&mut self, piece: &[u8]) -> Result<usize, DoorFail>
        ensures listed { IsErrOf result Failed ↔ FailsNext self.old }
        ensures sent { OnOk result (self.new.wires ≡ record self.old.wires { current = option_map (λ (wire : MemWireState). record wire { sent = wire.sent ++ piece.now }) self.old.wires.current }) }
        ensures all { IfOk result (λ n. n ≡ length piece.now) }
        ensures fails { IsErrOf result Failed → self.new.wires ≡ record self.old.wires { current = option_map (λ (wire : MemWireState). record wire { failed = true }) self.old.wires.current } }
        ensures no_memory { IsErrOf result DoorFail.NoMemory → self.new.wires ≡ self.old.wires }
        ensures unchanged { self.new ≡ record self.old { wires = self.new.wires; calls = one_more self.old.calls; broken = self.new.broken } }
        ensures each_fault { Counts self.old.broken self.new.broken (IsErrOf result Failed) }
        ensures at_most { IfOk result (λ n. n ≤ length piece.now) }
        ensures at_least { IfOk result (λ n. 0 < length piece.now → 0 < n) }
        ensures recorded { OnCurrent (Writes piece.now result) (recorded_of self.old.wires) (recorded_of self.new.wires) }
        ensures broken { HasCause self.old.broken self.new.broken (IsErrOf result Failed) }
    {
        if self.fails_now() {
            self.wires.fail_write();
            return Err(self.break_off());
        }
        self.wires.write(piece)
    }

    fn hang_up(&mut self)
        ensures hung_up { self.new ≡ record self.old { wires = let_go self.old.wires } }
        ensures recorded { recorded_of self.new.wires ≡ hung_up (recorded_of self.old.wires) }
    {
        self.wires.hang_up()
    }

    fn broken(&self) -> u64 {
        self.broken
    }

    fn faults(&self) -> u64 {
        self.faults
    }

    ghost agrees = { λ d. recorded_agrees d.wires };
}
