ghost use Rattle.std.specs.Prelude.{◌≡◌, ◌∷◌, ◌++◌, ◌+◌, ◌<◌, ◌^◌, [], true, length, min, take, drop, IfSome, MatchOption, OnErr, OnOk};
ghost use Rattle.lc_io.specs.MemWire.{ReadsPiece, fresh_pieces, left_of};

use crate::Pieces;
use lc_model::{Bytes, NoMemory};
use std::alloc::Global;
use std::marker::Model;

/// A connection in memory, whose bytes come in pieces. It counts the pieces that were read whole, and the bytes read of the next one.
#[derive(Drop)]
pub(crate) struct MemWire {
    pieces: Vec<Bytes>,
    whole: usize,
    part: usize,
    sent: Vec<u8>,
    failed: bool,
    read_failed: bool,
}

impl Model for MemWire {
    ghost use Rattle.lc_io.specs.MemWire.{MemWireState, left_of, read_of};
    ghost use Rattle.lc_io.specs.Pieces.{NoneIsEmpty};

    ghost Value = { MemWireState };

    ghost view = { λ w. record {
      to_come = left_of w.pieces.items w.whole w.part;
      read = read_of w.pieces.items w.whole w.part;
      sent = w.sent.items;
      failed = w.failed;
      read_failed = w.read_failed;
    } };

    ghost invariant = { λ w. NoneIsEmpty (left_of w.pieces.items w.whole w.part) };
}

/// What is left of the piece at this place, if there is one.
fn rest_at(pieces: &[Bytes], whole: usize, part: usize) -> Option<&[u8]>
    ensures rest { MatchOption result (left_of pieces.now whole part ≡ []) (λ rest. left_of pieces.now whole part
        ≡ rest.now ∷ left_of pieces.now (whole + 1) 0) }
    ensures fits { IfSome result (λ rest. (whole + 1 < 2 ^ 64) × (part + length rest.now < 2 ^ 64)) }
{
    let piece = pieces.get(whole)?.as_slice();
    Some(&piece[part.min(piece.len())..])
}

/// Copies as many bytes as fit into the front, and says how many.
fn copy_front(from: &[u8], to: &mut [u8]) -> usize
    ensures count { result ≡ min (length from.now) (length to.old) }
    ensures copied { to.new ≡ take result from.now ++ drop result to.old }
{
    let count = from.len().min(to.len());
    to[..count].copy_from_slice(&from[..count]);
    count
}

impl MemWire {
    /// A connection on which these pieces come.
    pub(crate) fn new(alloc: Global, pieces: Pieces) -> MemWire
        ensures { result ≡ fresh_pieces pieces }
    {
        MemWire {
            pieces: pieces.into_list(),
            whole: 0,
            part: 0,
            sent: Vec::new(alloc),
            failed: false,
            read_failed: false,
        }
    }

    /// Reads bytes of the next piece, as many as fit, and says how many.
    pub(crate) fn read(&mut self, piece: &mut [u8]) -> usize
        ensures { ReadsPiece self.old self.new piece.old piece.new result }
    {
        let Some(rest) = rest_at(&self.pieces, self.whole, self.part) else {
            return 0;
        };
        let count = copy_front(rest, piece);
        if count == rest.len() {
            self.whole += 1;
            self.part = 0;
        } else {
            self.part += count;
        }
        count
    }

    /// Sends these bytes.
    pub(crate) fn send(&mut self, bytes: &[u8]) -> Result<(), NoMemory>
        ensures ok { OnOk result (self.new ≡ record self.old { sent = self.old.sent ++ bytes.now }) }
        ensures err { OnErr result (self.new ≡ self.old) }
    {
        self.sent.extend_from_slice(bytes)?;
        Ok(())
    }

    /// Takes note that a write has failed.
    pub(crate) fn fail_write(&mut self)
        ensures { self.new ≡ record self.old { failed = true } }
    {
        self.failed = true;
    }

    /// Takes note that a read has failed.
    pub(crate) fn fail_read(&mut self)
        ensures { self.new ≡ record self.old { failed = true; read_failed = true } }
    {
        self.failed = true;
        self.read_failed = true;
    }

    /// The bytes sent.
    pub(crate) fn sent(&self) -> &[u8]
        ensures { result.now ≡ self.now.sent }
    {
        self.sent.as_slice()
    }
}
