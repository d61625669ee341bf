//! Arguments of `drill`, and of the replay that it plays.
use super::commands::put_word;
use super::words::{Side, put_read};
use cli_words::{Command, Drill, drilled_replay};
use lc_model::NoMemory;
use rows_common::Draft;
use std::alloc::Global;

/// Arguments of `drill`.
pub(super) static DRILLS: [&str; 28] = [
    "drill 1",
    "drill 20 --days 7",
    "drill --days=2 1000000",
    "drill --days 007 0000000007",
    "drill -- 5",
    "drill",
    "drill ",
    "drill 0",
    "drill 1000001",
    "drill -1",
    "drill +1",
    "drill 1.5",
    "drill one",
    "drill 00000000001",
    "drill 1 2",
    "drill 1 --days 0",
    "drill 1 --days 8",
    "drill 1 --days=",
    "drill 1 --days",
    "drill 1 --days 1 --days 1",
    "drill 1 --zone utc",
    "drill 1 --cache 5",
    "drill 1 --base http://x/",
    "drill 1 -",
    "drill -",
    "drill --help",
    "drills 1",
    "drill 1 a b",
];

/// A drill: its number and its days.
pub(super) fn put_drill(draft: &mut Draft, drill: &Drill) {
    draft.put("drill ");
    draft.put_shown(&drill.seed);
    put_word(draft, &drill.days);
}

/// The line of the replay that a drill of so many days plays.
pub(super) fn put_drilled(alloc: Global, draft: &mut Draft) {
    let drill = Drill { seed: 1, days: 3 };
    draft.put("played by drill 1 --days 3: ");
    put_read(draft, drilled(alloc, &drill), Side::Words);
}

fn drilled(alloc: Global, drill: &Drill) -> Result<Option<Command>, NoMemory> {
    let replay = drilled_replay(alloc, drill)?;
    Ok(Some(Command::Replay(replay)))
}
