ghost use Rattle.std.specs.Prelude.{◌≡◌, Some};
ghost use Rattle.http_text.specs.declared.reply_fault.ReplyFault.TheVariants.{NoMemory as OutOfMemory};
ghost use Rattle.http_text.specs.Texts.{fault_text};

use lc_model::NoMemory;
use std::error::Error;
use std::fmt;

/// Why bytes are no reply that is taken: the first fault.
#[derive(Clone, Copy, Debug, PartialEq, Eq)]
pub enum ReplyFault {
    /// The bytes begin with no head of a reply, or end within it.
    Head,
    /// The head has more than 16,384 bytes or more than 100 fields.
    LongHead,
    /// The body comes in another encoding, as in chunks.
    Chunked,
    /// There are two lengths, or one that is not one to ten digits.
    BadLength,
    /// The head says a body of `wanted` bytes, and `got` follow.
    Cut { wanted: u64, got: u64 },
    /// There was not enough memory.
    NoMemory,
}

impl fmt::Display for ReplyFault {
    ghost output = { λ fault. Some (fault_text fault) };

    fn fmt<W: fmt::Write>(&self, f: &mut fmt::Formatter<W>) -> fmt::Result {
        match self {
            ReplyFault::Head => write!(f, "no head of a reply"),
            ReplyFault::LongHead => write!(f, "too long a head"),
            ReplyFault::Chunked => write!(f, "a body in another encoding"),
            ReplyFault::BadLength => write!(f, "a wrong length"),
            ReplyFault::Cut { wanted, got } => write!(f, "{got} bytes of a body of {wanted}"),
            ReplyFault::NoMemory => write!(f, "no memory"),
        }
    }
}

impl Error for ReplyFault {}

impl From<NoMemory> for ReplyFault {
    ghost from_gives = { λ _ e. e ≡ OutOfMemory };

    fn from(_: NoMemory) -> ReplyFault {
        ReplyFault::NoMemory
    }
}
