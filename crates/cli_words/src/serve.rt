ghost use Rattle.std.specs.Prelude.{◌≡◌, ℕ, IfOk, IfSome, List, MatchOption};
ghost use Rattle.std.specs.String.{string_bytes};
ghost use Rattle.clap.specs.Simple.{App};
ghost use Rattle.cli_words.specs.Line.{HasFound, IsLine, serve_line, texts_of};
ghost use Rattle.cli_words.specs.Published.{SaysPublished};
ghost use Rattle.cli_words.specs.Serve.{SaysServe, address_at};
ghost use Rattle.cli_words.specs.declared.command.Published.{Published as Said};
ghost use Rattle.cli_words.specs.declared.command.Serve.{Serve as Served};

use crate::door::read_door;
use crate::feed_window::read_feed_window;
use crate::line::read_line;
use crate::published::read_published;
use crate::{FeedWindow, Published, Serve};
use clap::ArgMatches;
use lc_model::NoMemory;
use std::alloc::Global;

/// The plain arguments of `serve` in their order, and its options, with a value and without.
static PLACES: [&str; 2] = ["feed", "first"];

static OPTIONS: [&str; 9] = [
    "days",
    "zone",
    "change",
    "base",
    "base-moment",
    "cuts",
    "update",
    "port",
    "connections",
];

static FLAGS: [&str; 1] = ["accept-updates"];

/// What the arguments after `serve` say. None exactly where they say no such command.
pub(crate) fn read_serve(alloc: Global, words: &[String]) -> Result<Option<Serve>, NoMemory>
    ensures { IfOk result (λ serve. MatchOption serve ((serve : Served) → SaysServe (texts_of words.now) serve → ⊥)
        (SaysServe (texts_of words.now))) }
{
    match read_line(alloc, "serve", &PLACES, &OPTIONS, &FLAGS, words)? {
        Some(found) => found_serve(alloc, &found),
        None => Ok(None),
    }
}

/// What was found in a line of `serve`. None exactly where it says no such command.
fn found_serve<'a>(alloc: Global, found: &ArgMatches<'a>) -> Result<Option<Serve>, NoMemory>
    ensures { (words : List (List ℕ)) → IsLine serve_line words → HasFound serve_line words found.now → IfOk result (λ serve.
        MatchOption serve ((serve : Served) → SaysServe words serve → ⊥) (SaysServe words)) }
{
    let Some(door) = read_door(found) else {
        return Ok(None);
    };
    let Some(window) = read_feed_window(alloc, found)? else {
        return Ok(None);
    };
    match read_at_port(alloc, found, window, door.port)? {
        Some(published) => Ok(Some(Serve {
            published,
            port: door.port,
            connections: door.connections,
            accept_updates: door.accept_updates,
        })),
        None => Ok(None),
    }
}

/// The timetable of a feed in this window, published by the options that were found in a line, at the address of this port where they say no
/// base. None where one of them is said wrongly.
fn read_at_port<'a>(
    alloc: Global,
    found: &ArgMatches<'a>,
    window: FeedWindow,
    port: u16,
) -> Result<Option<Published>, NoMemory>
    ensures window { IfOk result (λ published. IfSome published (λ published. published.window ≡ window)) }
    ensures said { (a : App) (words : List (List ℕ)) → HasFound a words found.now → IfOk result (λ published.
        MatchOption published ((published : Said) → SaysPublished (address_at port) a words published → ⊥)
        (SaysPublished (address_at port) a words)) }
{
    let address = address_of(alloc, port)?;
    read_published(alloc, found, window, address.as_str())
}

/// The address of a server at this port of the same machine.
fn address_of(alloc: Global, port: u16) -> Result<String, NoMemory>
    ensures { IfOk result (λ address. string_bytes address ≡ address_at port) }
{
    Ok(format!(in alloc; "http://localhost:{port}/")?)
}
