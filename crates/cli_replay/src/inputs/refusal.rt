use lc_model::{NoMemory, Text};
use timetable::LoadFault;
use trip_updates::RtFault;

/// Why a command is not carried out, for a cause that is no client's.
#[derive(Drop)]
pub enum Refusal {
    /// The arguments are none that a command has.
    Usage,
    /// The feed gave no timetable.
    Load(LoadFault),
    /// A row of the script, counted from 1, is no record, or names a file that is absent. It is 0 where the script is absent, or the
    /// file of the one message.
    Script { row: u64 },
    /// A file beside the feed could not be read: the directory's count of faults before the run and after.
    Folder { before: u64, after: u64 },
    /// A message has so many bytes, which are too many.
    LongUpdate { bytes: u64 },
    /// The file of a message is no realtime message.
    BrokenUpdate { name: Text, fault: RtFault },
}

impl From<NoMemory> for Refusal {
    ghost use Rattle.std.specs.Prelude.{◌≡◌};
    ghost use Rattle.timetable.specs.declared.fault.LoadFault.TheVariants.{NoMemory as OutOfMemory};
    ghost use Rattle.cli_replay.specs.declared.inputs.refusal.Refusal.TheVariants.{Load};

    ghost from_gives = { λ _ refusal. refusal ≡ Load OutOfMemory };

    fn from(_: NoMemory) -> Refusal {
        Refusal::Load(LoadFault::NoMemory)
    }
}
