ghost use Rattle.std.specs.Prelude.{◌≤◌, IsTrue, length};
ghost use Rattle.cli_replay.specs.ReplayLaws.Message.{has_no_fault};

use lc_io::File;

/// A file with a realtime message: 16 MiB at most, and without a fault.
#[derive(Drop)]
pub struct Message {
    pub file: File,
    ghost short: { length file.bytes ≤ 16_777_216 },
    ghost whole: { IsTrue (has_no_fault file.bytes) },
}
