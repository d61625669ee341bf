//! The bytes of a client, which come in two pieces.
use crate::making::bytes;
use lc_io::Pieces;
use lc_model::Bytes;
use rows_common::Unmade;
use std::alloc::Global;

fn pieces(alloc: Global) -> Result<Pieces, Unmade> {
    let first = bytes(alloc, "GET / ")?;
    let second = bytes(alloc, "HTTP")?;
    two_pieces(alloc, first, second)
}

fn two_pieces(alloc: Global, first: Bytes, second: Bytes) -> Result<Pieces, Unmade> {
    if first.as_slice().is_empty() || second.as_slice().is_empty() {
        return Err(Unmade);
    }
    Ok(Pieces::from_list(vec![in alloc; first, second]?))
}

/// One connection.
pub(super) fn connections(alloc: Global) -> Result<Vec<Pieces>, Unmade> {
    Ok(vec![in alloc; pieces(alloc)?]?)
}
