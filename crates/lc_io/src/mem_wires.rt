ghost use Rattle.std.specs.Prelude.{◌≡◌, ◌<◌, ◌≤◌, ◌-◌, ◌++◌, ◌↔◌, true, length, None, Some, IfOk, IsSome, IsTrue, OnErr, OnOk, slice_get};
ghost use Rattle.std.specs.Option.{option_map};
ghost use Rattle.lc_io.specs.MemWire.{MemWireState, ReadsPiece};
ghost use Rattle.lc_io.specs.MemWires.{ComesTo, came, let_go, opened_for};
ghost use Rattle.lc_io.specs.Door.{GoesOn};
ghost use Rattle.lc_io.specs.declared.door.DoorFail.TheVariants.{NoMemory as OutOfMemory};

use crate::mem_wire::MemWire;
use crate::{DoorFail, Next, Pieces};
use lc_model::NoMemory;
use std::alloc::Global;
use std::collections::VecDeque;
use std::marker::Model;

/// The connections of a door in memory. While there is a current one there is room for it among the past ones, so that hanging up needs no
/// memory.
#[derive(Drop)]
pub(crate) struct MemWires {
    alloc: Global,
    port: Option<u16>,
    waiting: VecDeque<Pieces>,
    past: Vec<MemWire>,
    current: Option<MemWire>,
}

impl Model for MemWires {
    ghost use Rattle.std.specs.Prelude.{◌<◌, IsSome, vec_len, vec_capacity};
    ghost use Rattle.lc_io.specs.MemWires.{MemWiresState};

    ghost Value = { MemWiresState };

    ghost view = { λ w. record { port = w.port; waiting = w.waiting.items; past = w.past.items; current = w.current } };

    ghost invariant = { λ w. IsSome w.current → vec_len w.past < vec_capacity w.past };
}

impl MemWires {
    /// The connections of a door at which these come, one after the other.
    pub(crate) fn new(alloc: Global, connections: Vec<Pieces>) -> MemWires
        ensures { result ≡ opened_for connections.items }
    {
        MemWires {
            alloc,
            port: None,
            waiting: VecDeque::from(connections),
            past: Vec::new(alloc),
            current: None,
        }
    }

    pub(crate) fn listen(&mut self, port: u16)
        ensures { self.new ≡ record self.old { port = Some port } }
    {
        self.port = Some(port);
    }

    pub(crate) fn hang_up(&mut self)
        ensures { self.new ≡ let_go self.old }
    {
        if let Some(wire) = self.current.take() {
            let _ = self.past.push(wire);
        }
    }

    /// Hangs up, and takes the next connection.
    pub(crate) fn next(&mut self) -> Result<Next, DoorFail>
        ensures comes { ComesTo result self.old self.new }
        ensures no_fault { OnErr result (result ≡ Err DoorFail.NoMemory) }
    {
        self.hang_up();
        if self.waiting.is_empty() {
            return Ok(Next::Closed);
        }
        if self.past.reserve(1).is_err() {
            return Err(DoorFail::NoMemory);
        }
        let Some(pieces) = self.waiting.pop_front() else {
            return Ok(Next::Closed);
        };
        self.current = Some(MemWire::new(self.alloc, pieces));
        Ok(Next::Connection)
    }

    pub(crate) fn read(&mut self, piece: &mut [u8]) -> usize
        ensures others { self.new ≡ record self.old { current = self.new.current } }
        ensures nobody { self.old.current ≡ None → result ≡ 0 }
        ensures untouched { self.old.current ≡ None → piece.new ≡ piece.old }
        ensures current { GoesOn (λ before after. ReadsPiece before after piece.old piece.new result) self.old.current self.new.current }
    {
        match &mut self.current {
            Some(wire) => wire.read(piece),
            None => 0,
        }
    }

    pub(crate) fn write(&mut self, piece: &[u8]) -> Result<usize, DoorFail>
        ensures sent { OnOk result (self.new ≡ record self.old { current = option_map (λ (wire : MemWireState). record wire { sent = wire.sent ++ piece.now }) self.old.current }) }
        ensures all { IfOk result (λ n. n ≡ length piece.now) }
        ensures no_memory { OnErr result ((result ≡ Err DoorFail.NoMemory) × (self.new ≡ self.old)) }
    {
        if let Some(wire) = &mut self.current {
            if wire.send(piece).is_err() {
                return Err(DoorFail::NoMemory);
            }
        }
        Ok(piece.len())
    }

    /// Takes note that a write on the current connection has failed.
    pub(crate) fn fail_write(&mut self)
        ensures { self.new ≡ record self.old { current = option_map (λ (wire : MemWireState). record wire { failed = true }) self.old.current } }
    {
        if let Some(wire) = &mut self.current {
            wire.fail_write();
        }
    }

    /// Takes note that a read on the current connection has failed.
    pub(crate) fn fail_read(&mut self)
        ensures { self.new ≡ record self.old { current = option_map (λ (wire : MemWireState). record wire { failed = true; read_failed = true }) self.old.current } }
    {
        if let Some(wire) = &mut self.current {
            wire.fail_read();
        }
    }

    pub(crate) fn is_connected(&self) -> bool
        ensures { IsTrue result ↔ IsSome self.now.current }
    {
        self.current.is_some()
    }

    pub(crate) fn port(&self) -> Option<u16>
        ensures { result ≡ self.now.port }
    {
        self.port
    }

    /// How many connections came.
    pub(crate) fn taken(&self) -> usize
        ensures { result ≡ length (came self.now) }
    {
        match &self.current {
            Some(_) => self.past.len() + 1,
            None => self.past.len(),
        }
    }

    /// The bytes sent on the connection of this number, from 1.
    pub(crate) fn sent(&self, connection: usize) -> &[u8]
        requires from { 0 < connection }
        requires to { connection ≤ length (came self.now) }
        ensures { option_map (λ (wire : MemWireState). wire.sent) (slice_get (came self.now) (connection - 1)) ≡ Some result.now }
    {
        if let Some(wire) = self.past.get(connection - 1) {
            return wire.sent();
        }
        match &self.current {
            Some(wire) => wire.sent(),
            None => &[],
        }
    }
}
