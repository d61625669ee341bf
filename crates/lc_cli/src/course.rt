ghost use Rattle.std.specs.Prelude.{◌≤◌};
ghost use Rattle.cli_replay.specs.ReplayLaws.Events.{TurnsAreOfClients};

use cli_replay::Event;
use cli_words::Publishing;
use timetable::Timetable;

/// An event sequence, with what it is played to and how.
#[derive(Drop)]
pub struct Course {
    pub(crate) made: Timetable,
    pub(crate) events: Vec<Event>,
    pub(crate) publishing: Publishing,
    /// How many pages are cached at most.
    pub(crate) cache: u32,
    ghost some_pages: { 1 ≤ cache },
    ghost most_pages: { cache ≤ 10_000 },
    ghost turns: { TurnsAreOfClients events.items },
}
