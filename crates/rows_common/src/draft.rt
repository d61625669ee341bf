//! A text that is written piece by piece.
use crate::Unmade;
use std::alloc::Global;
use std::fmt::Display;

/// A text that is written piece by piece. Running out of memory stops none of its writers: it is
/// remembered, and said at the end.
#[derive(Drop)]
pub struct Draft {
    text: String,
    is_whole: bool,
}

impl Draft {
    pub fn new(alloc: Global) -> Draft {
        Draft {
            text: String::new(alloc),
            is_whole: true,
        }
    }

    pub fn as_str(&self) -> &str {
        self.text.as_str()
    }

    pub fn as_bytes(&self) -> &[u8] {
        self.text.as_str().as_bytes()
    }

    /// The bytes of the text, taken out of the draft.
    pub fn into_bytes(self) -> Vec<u8> {
        let Draft { text, is_whole: _ } = self;
        text.into_bytes()
    }

    /// That each piece is there, or not.
    pub fn made(&self) -> Result<(), Unmade> {
        if self.is_whole { Ok(()) } else { Err(Unmade) }
    }

    /// Something could not be made of which a piece was to speak.
    pub fn lose(&mut self) {
        self.is_whole = false;
    }

    /// A part of which a piece speaks has to be whole too.
    pub fn also(&mut self, part: &Draft) {
        if !part.is_whole {
            self.lose();
        }
    }

    /// Something that had to be done is done, or is lost.
    pub fn need<T: Drop, E: Drop>(&mut self, done: Result<T, E>) {
        match done {
            Ok(_) => {}
            Err(_) => self.lose(),
        }
    }

    /// The text of a part, and whether it is whole.
    pub fn put_part(&mut self, text: &str, made: Result<(), Unmade>) {
        self.put(text);
        match made {
            Ok(()) => {}
            Err(Unmade) => self.lose(),
        }
    }

    pub fn put(&mut self, piece: &str) {
        if self.text.push_str(piece).is_err() {
            self.lose();
        }
    }

    /// Pieces one after the other. In one call they are cheaper to prove than in a call each.
    pub fn put_all(&mut self, pieces: &[&str]) {
        for piece in pieces {
            self.put(piece);
        }
    }

    pub fn put_times(&mut self, piece: &str, times: usize) {
        for _ in 0..times {
            self.put(piece);
        }
    }

    pub fn put_shown<T: Display>(&mut self, shown: &T) {
        if write!(self.text, "{}", *shown).is_err() {
            self.lose();
        }
    }

    /// Shows what is not needed any more.
    pub fn put_owned<T: Display + Drop>(&mut self, shown: T) {
        self.put_shown(&shown);
    }

    /// What came out of a reading: what was read, or the fault.
    pub fn put_read<T: Display + Drop, E: Display + Drop>(&mut self, read: Result<T, E>) {
        match read {
            Ok(said) => self.put_owned(said),
            Err(fault) => self.put_owned(fault),
        }
    }

    /// Whether something was read.
    pub fn put_is_read<T: Drop, E: Drop>(&mut self, read: Result<T, E>) {
        match read {
            Ok(_) => self.put("true\n"),
            Err(_) => self.put("false\n"),
        }
    }

    /// Bytes in quotes, so that each is shown exactly.
    pub fn put_quoted(&mut self, bytes: &[u8]) {
        self.put("\"");
        self.put_escaped(bytes);
        self.put("\"");
    }

    /// Bytes: what ASCII prints as it is, and else its escape.
    pub fn put_escaped(&mut self, bytes: &[u8]) {
        for byte in bytes {
            self.put_byte(*byte);
        }
    }

    fn put_byte(&mut self, byte: u8) {
        match byte {
            b'\n' => self.put("\\n"),
            b'\r' => self.put("\\r"),
            b'\t' => self.put("\\t"),
            b'\\' => self.put("\\\\"),
            b' '..=b'~' => self.put_shown(&(byte as char)),
            _ => self.put_code(byte),
        }
    }

    fn put_code(&mut self, byte: u8) {
        if write!(self.text, "\\x{byte:02x}").is_err() {
            self.lose();
        }
    }
}
