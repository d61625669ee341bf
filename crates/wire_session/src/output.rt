ghost use Rattle.std.specs.Prelude.{◌≡◌, ◌≤◌, [], ◌++◌, length, drop, OnErr, OnOk};

use lc_model::NoMemory;
use std::alloc::Global;
use std::marker::Model;

/// Bytes that are to be sent. A contract sees those that are left.
#[derive(Drop)]
pub struct Output {
    bytes: Vec<u8>,
    sent: usize,
}

impl Model for Output {
    ghost use Rattle.std.specs.Prelude.{ℕ, ◌≤◌, List, drop, length};

    ghost Value = { List ℕ };

    ghost view = { λ o. drop o.sent o.bytes.items };

    ghost invariant = { λ o. o.sent ≤ length o.bytes.items };
}

impl Output {
    pub fn new(alloc: Global) -> Output
        ensures { result ≡ [] }
    {
        Output {
            bytes: Vec::new(alloc),
            sent: 0,
        }
    }

    pub fn left(&self) -> &[u8]
        ensures { result.now ≡ self.now }
    {
        &self.bytes[self.sent..]
    }

    /// Adds bytes at the end. Where nothing is left they are taken as they are, and else copied.
    pub fn add(&mut self, bytes: Vec<u8>) -> Result<(), NoMemory>
        ensures ok { OnOk result (self.new ≡ self.old ++ bytes.items) }
        ensures unchanged { OnErr result (self.new ≡ self.old) }
    {
        if self.sent == self.bytes.len() {
            self.bytes = bytes;
            self.sent = 0;
        } else {
            self.bytes.extend_from_slice(bytes.as_slice())?;
        }
        Ok(())
    }

    /// This many of the bytes were sent. Once all were, none are held.
    pub fn take(&mut self, count: usize)
        requires { count ≤ length self.old }
        ensures { self.new ≡ drop count self.old }
    {
        self.sent += count;
        if self.sent == self.bytes.len() {
            self.bytes.clear();
            self.sent = 0;
        }
    }
}
