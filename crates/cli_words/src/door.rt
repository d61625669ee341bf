ghost use Rattle.std.specs.Prelude.{◌≡◌, ◌≤◌, ℕ, Bool, List, MatchOption};
ghost use Rattle.cli_words.specs.Line.{HasFound, serve_line};
ghost use Rattle.cli_words.specs.Serve.{SaysDoor};

use crate::options::{flag, required};
use clap::ArgMatches;

/// At which port a server is asked, for how many connections, and whether it takes messages.
#[derive(Clone, Copy)]
pub(crate) struct DoorOptions {
    pub(crate) port: u16,
    pub(crate) connections: u32,
    pub(crate) accept_updates: bool,
    pub(crate) ghost some_port: { 1 ≤ port },
    pub(crate) ghost some_connections: { 1 ≤ connections },
    pub(crate) ghost most_connections: { connections ≤ 1_000_000 },
}

/// The options of the door that were found in a line of `serve`, or none where one of them is absent or said wrongly.
pub(crate) fn read_door<'a>(found: &ArgMatches<'a>) -> Option<DoorOptions>
    ensures { (words : List (List ℕ)) → HasFound serve_line words found.now → MatchOption result
        ((port connections : ℕ) (accepts : Bool) → SaysDoor words port connections accepts → ⊥)
        (λ door. SaysDoor words door.port door.connections door.accept_updates) }
{
    let port = required(found.get_str("port"), 1, 65_535)?;
    let connections = required(found.get_str("connections"), 1, 1_000_000)?;
    let accept_updates = flag(found.get_str("accept-updates"));
    Some(DoorOptions {
        port: port as u16,
        connections,
        accept_updates,
    })
}
