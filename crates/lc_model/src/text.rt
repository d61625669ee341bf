ghost use Rattle.std.specs.Prelude.{◌≡◌, IfOk};
ghost use Rattle.std.specs.Str.{IsUtf8};
ghost use Rattle.std.specs.String.{string_bytes};

use crate::{NoMemory, PlainData};
use std::alloc::Global;
use std::marker::Model;

/// A UTF-8 text. A contract sees its bytes.
#[derive(Drop)]
pub struct Text {
    text: String,
}

impl Model for Text {
    ghost use Rattle.std.specs.Prelude.{ℕ, List};
    ghost use Rattle.std.specs.String.{string_bytes};

    ghost Value = { List ℕ };

    ghost view = { λ t. string_bytes t.text };
}

impl Text {
    pub fn from_string(text: String) -> Text
        ensures { result ≡ string_bytes text }
    {
        Text { text }
    }

    pub fn as_str(&self) -> &str
        ensures value { result.now ≡ self.now }
        ensures text { IsUtf8 result.now }
    {
        self.text.as_str()
    }
}

impl PlainData for Text {
    fn copy(&self, alloc: Global) -> Result<Text, NoMemory> {
        Ok(Text {
            text: String::from_str(alloc, self.text.as_str())?,
        })
    }
}

/// A list of bytes. A contract sees the list.
#[derive(Drop)]
pub struct Bytes {
    items: Vec<u8>,
}

impl Model for Bytes {
    ghost use Rattle.std.specs.Prelude.{ℕ, List};

    ghost Value = { List ℕ };

    ghost view = { λ b. b.items.items };
}

impl Bytes {
    pub fn from_list(list: Vec<u8>) -> Bytes
        ensures { result ≡ list.items }
    {
        Bytes { items: list }
    }

    pub fn as_slice(&self) -> &[u8]
        ensures { result.now ≡ self.now }
    {
        self.items.as_slice()
    }
}

impl PlainData for Bytes {
    fn copy(&self, alloc: Global) -> Result<Bytes, NoMemory> {
        Ok(Bytes {
            items: self.items.as_slice().to_vec(alloc)?,
        })
    }
}
