ghost use Rattle.std.specs.Prelude.{IfErr, OnOk};
ghost use Rattle.version_store.specs.declared.message_fault.MessageFault.TheVariants.{NoMemory as OutOfMemory};
ghost use Rattle.cli_replay.specs.ReplayLaws.Message.{IsMessageText, IsNoText};

use std::alloc::Global;
use trip_updates::{RtFault, one_meaning, read_message};
use version_store::{MOST_MESSAGE_BYTES, MessageFault};

/// Tests whether the bytes of a file are a message that a publisher may receive.
pub fn test_message(alloc: Global, bytes: &[u8]) -> Result<(), MessageFault>
    ensures said { OnOk result (IsMessageText bytes.now) }
    ensures fault { IfErr result (IsNoText bytes.now) }
{
    one_meaning();
    let count = bytes.len();
    if count > MOST_MESSAGE_BYTES {
        return Err(MessageFault::TooLong {
            bytes: count as u64,
        });
    }
    match read_message(alloc, bytes) {
        Ok(_) => Ok(()),
        Err(RtFault::NoMemory) => Err(MessageFault::NoMemory),
        Err(fault) => Err(MessageFault::Broken(fault)),
    }
}
