use crate::{Fields, Members};
use lc_model::{Bytes, NoMemory, PlainData};
use std::alloc::Global;

/// What a request says. Its body is from `body_from` to the end of its bytes.
#[derive(Drop)]
pub struct Request {
    pub method: Bytes,
    /// The path of the target, as it is written.
    pub path: Bytes,
    pub query: Members,
    pub fields: Fields,
    pub body_from: usize,
    /// Whether the connection ends after the reply.
    pub close: bool,
}

impl PlainData for Request {
    fn copy(&self, alloc: Global) -> Result<Request, NoMemory> {
        Ok(Request {
            method: self.method.copy(alloc)?,
            path: self.path.copy(alloc)?,
            query: self.query.copy(alloc)?,
            fields: self.fields.copy(alloc)?,
            body_from: self.body_from,
            close: self.close,
        })
    }
}
