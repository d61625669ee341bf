use lc_model::NoMemory;
use trip_updates::RtFault;

/// Why the bytes of a file are no message that a store could admit.
#[derive(Clone, Copy, PartialEq, Eq)]
pub enum MessageFault {
    /// There are so many of them, which are too many.
    TooLong { bytes: u64 },
    /// They are no realtime message.
    Broken(RtFault),
    NoMemory,
}

impl From<NoMemory> for MessageFault {
    ghost use Rattle.std.specs.Prelude.{◌≡◌};
    ghost use Rattle.version_store.specs.declared.message_fault.MessageFault.TheVariants.{NoMemory as OutOfMemory};

    ghost from_gives = { λ _ fault. fault ≡ OutOfMemory };

    fn from(_: NoMemory) -> MessageFault {
        MessageFault::NoMemory
    }
}
