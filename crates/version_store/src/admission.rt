ghost use Rattle.std.specs.Prelude.{◌≡◌, Some};
ghost use Rattle.version_store.specs.Texts.{fault_text};
ghost use Rattle.version_store.specs.declared.admission.AdmitFault.TheVariants.{NoMemory as OutOfMemory};

use lc_model::{Moment, NoMemory};
use lc_time::iso_text;
use percent_encoding::ascii_str;
use std::error::Error;
use std::fmt;
use trip_updates::RtFault;

/// The most bytes that a message may have: 16 MiB.
pub const MOST_MESSAGE_BYTES: usize = 16_777_216;
/// The most messages that are admitted.
pub const MOST_MESSAGES: usize = 10_000;
/// The most bytes that all admitted messages may have: 256 MiB.
pub const MOST_BYTES: usize = 268_435_456;

/// A message that was admitted: its moment, which is the new version, and how many of its trip updates were passed over.
#[derive(Clone, Copy, PartialEq, Eq)]
pub struct Admitted {
    pub moment: Moment,
    pub passed: u32,
}

/// Why a message was not admitted. Of several causes the first one counts.
#[derive(Clone, Copy, Debug, PartialEq, Eq)]
pub enum AdmitFault {
    /// The message is too long.
    TooLong { bytes: u64 },
    /// The bytes are no message.
    Broken(RtFault),
    /// The message is not of a later moment than the newest version.
    NotNewer { newest: Moment },
    /// There is no room for it beside the messages that were admitted.
    Full { messages: u64, bytes: u64 },
    /// There was not enough memory.
    NoMemory,
}

impl fmt::Display for AdmitFault {
    ghost output = { λ fault. Some (fault_text fault) };

    fn fmt<W: fmt::Write>(&self, f: &mut fmt::Formatter<W>) -> fmt::Result {
        match self {
            AdmitFault::TooLong { bytes } => write!(f, "too large update {bytes}"),
            AdmitFault::Broken(fault) => write!(f, "{fault}"),
            AdmitFault::NotNewer { newest } => {
                let text = iso_text(*newest);
                let newest = ascii_str(&text);
                write!(f, "ignored newest {newest}")
            }
            AdmitFault::Full { messages, bytes } => { write!(f, "ignored full {messages} {bytes}") }
            AdmitFault::NoMemory => f.write_str("no memory"),
        }
    }
}

impl Error for AdmitFault {}

impl From<NoMemory> for AdmitFault {
    ghost from_gives = { λ _ fault. fault ≡ OutOfMemory };

    fn from(_: NoMemory) -> AdmitFault {
        AdmitFault::NoMemory
    }
}
