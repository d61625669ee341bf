//! Ids and bytes of texts.
use lc_model::{Bytes, Id};
use rows_common::Unmade;
use std::alloc::Global;

pub(crate) fn id(alloc: Global, text: &str) -> Result<Id, Unmade> {
    match Id::new(alloc, text.as_bytes()) {
        Ok(Some(id)) => Ok(id),
        _ => Err(Unmade),
    }
}

pub(crate) fn bytes(alloc: Global, text: &str) -> Result<Bytes, Unmade> {
    match text.as_bytes().to_vec(alloc) {
        Ok(list) => Ok(Bytes::from_list(list)),
        Err(_) => Err(Unmade),
    }
}
